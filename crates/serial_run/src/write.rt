// Writing a text whole.
ghost use mathlib.Core.List.{IsPrefix};
ghost use Rattle.std.specs.Prelude.{◌≡◌, ◌≤◌, ◌++◌, ℕ, List, Some, IsErrOf, OnErr, OnOk};
ghost use Rattle.kb_edges.specs.Faults.{Rose};
ghost use Rattle.kb_edges.specs.Told.{IfTold};

use kb_edges::{Sink, SinkError};

/// Writes a text whole. After an error a prefix of it is written. The errors are those of the sink:
/// `Failed` comes only where its count of faults rose.
pub fn write_all<K: Sink>(out: &mut K, text: &[u8]) -> Result<(), SinkError>
    ensures whole { IfTold (K.written out.old)
        (λ before. OnOk result (K.written out.new ≡ Some (before ++ text.now))) }
    ensures part { IfTold (K.written out.old)
        (λ before. OnErr result ((more : List ℕ) × IsPrefix more text.now
        × (K.written out.new ≡ Some (before ++ more)))) }
    ensures later { K.faults out.old ≤ K.faults out.new }
    ensures failed { IsErrOf result SinkError.Failed → Rose (K.faults out.old) (K.faults out.new) }
{
    let mut rest = text;
    while !rest.is_empty() {
        let count = out.write(rest)?;
        rest = &rest[count..];
    }
    Ok(())
}
