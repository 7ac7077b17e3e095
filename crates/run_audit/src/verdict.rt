// What an audit says of a record.
ghost use mathlib.Core.List.{IsPrefix};
ghost use Rattle.std.specs.Prelude.{◌≡◌, ◌≤◌, ◌++◌, ℕ, List, Some, IfOk, IsErrOf, OnErr, OnOk};
ghost use Rattle.kb_edges.specs.Faults.{Rose};
ghost use Rattle.kb_edges.specs.Told.{IfTold};
ghost use Rattle.serial_run.specs.declared.statements.Stopped.TheVariants as stopped;
ghost use Rattle.run_audit.specs.Texts.{verdict_text};

use kb_edges::Sink;
use kb_geometry::{NoMemory, append, append_decimal_and};
use serial_run::{Stopped, write_all};
use std::alloc::Global;

// What an audit says of a record.
#[derive(Clone, Copy, Debug, PartialEq, Eq)]
pub(crate) enum Verdict {
    // It is a lawful output.
    Lawful,
    // It departs from its guided output at this offset.
    Departs { at: usize },
    // It is longer than a record may be.
    TooLong,
}

impl Verdict {
    // Its line.
    fn text(self, alloc: Global) -> Result<Vec<u8>, NoMemory>
        ensures { IfOk result (λ text. text.items ≡ verdict_text self) }
    {
        let mut text = Vec::new(alloc);
        match self {
            Verdict::Lawful => append(&mut text, b"audit lawful\n")?,
            Verdict::Departs { at } => {
                append(&mut text, b"audit departs at ")?;
                append_decimal_and(&mut text, at as u64, b'\n')?;
            }
            Verdict::TooLong => append(&mut text, b"audit too long\n")?,
        }
        Ok(text)
    }

    // Writes its line. After an error a prefix of it is written.
    pub(crate) fn write<K: Sink>(self, alloc: Global, out: &mut K) -> Result<(), Stopped>
        ensures whole { IfTold (K.written out.old)
            (λ before. OnOk result (K.written out.new ≡ Some (before ++ verdict_text self))) }
        ensures part { IfTold (K.written out.old)
            (λ before. OnErr result ((more : List ℕ) × IsPrefix more (verdict_text self)
            × (K.written out.new ≡ Some (before ++ more)))) }
        ensures later { K.faults out.old ≤ K.faults out.new }
        ensures failed { IsErrOf result stopped.SinkFault →
            Rose (K.faults out.old) (K.faults out.new) }
    {
        let text = self.text(alloc)?;
        write_all(out, &text)?;
        Ok(())
    }
}
