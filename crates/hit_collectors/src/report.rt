// The report line of a box.
ghost use Rattle.std.specs.Prelude.{◌≡◌, ◌++◌, OnErr, OnOk};
ghost use Rattle.std.specs.List.{flat_map};
ghost use mathlib.Core.List.{IsPrefix};
ghost use Rattle.hit_collectors.specs.Reports.{behind_space, report_line, word_of};

use crate::Kind;
use kb_geometry::{NoMemory, append, append_decimal};

// Appends the report line of a box with this name, kind and numbers.
pub(crate) fn append_report(
    out: &mut Vec<u8>,
    name: &str,
    kind: Kind,
    numbers: &[u64],
) -> Result<(), NoMemory>
    ensures ok { OnOk result (out.new.items ≡ out.old.items ++ report_line (record {
      name = name.now;
      kind = kind;
      numbers = numbers.now;
    })) }
    ensures refused { OnErr result (IsPrefix out.old.items out.new.items) }
{
    append(out, b"collector ")?;
    append(out, name.as_bytes())?;
    append(out, b" ")?;
    append_word(out, kind)?;
    append_numbers(out, numbers)?;
    append(out, b"\n")?;
    Ok(())
}

// Appends the word for a kind.
fn append_word(out: &mut Vec<u8>, kind: Kind) -> Result<(), NoMemory>
    ensures ok { OnOk result (out.new.items ≡ out.old.items ++ word_of kind) }
    ensures refused { OnErr result (IsPrefix out.old.items out.new.items) }
{
    match kind {
        Kind::Total => append(out, b"total"),
        Kind::Labels => append(out, b"labels"),
        Kind::Phases => append(out, b"phases"),
        Kind::Outcomes => append(out, b"outcomes"),
        Kind::Nexts => append(out, b"nexts"),
    }
}

// Appends numbers, each behind a space.
fn append_numbers(out: &mut Vec<u8>, numbers: &[u64]) -> Result<(), NoMemory>
    ensures ok { OnOk result (out.new.items ≡ out.old.items ++ flat_map behind_space numbers.now) }
    ensures refused { OnErr result (IsPrefix out.old.items out.new.items) }
{
    for number in numbers {
        append_number(out, *number)?;
    }
    Ok(())
}

// Appends a number behind a space.
fn append_number(out: &mut Vec<u8>, number: u64) -> Result<(), NoMemory>
    ensures ok { OnOk result (out.new.items ≡ out.old.items ++ behind_space number) }
    ensures refused { OnErr result (IsPrefix out.old.items out.new.items) }
{
    append(out, b" ")?;
    append_decimal(out, number)?;
    Ok(())
}
