// Bytes and numbers that are appended to a vector, and taken off it again.
ghost use Rattle.std.specs.Prelude.{◌≡◌, ◌++◌, ◌∷◌, [], OnErr, OnOk, take};
ghost use Rattle.std.specs.Fmt.{decimal};

use crate::memory::NoMemory;

/// Appends these bytes. After `NoMemory` `out` holds the bytes that it held before.
#[inline]
pub fn append(out: &mut Vec<u8>, bytes: &[u8]) -> Result<(), NoMemory>
    ensures ok { OnOk result (out.new.items ≡ out.old.items ++ bytes.now) }
    ensures refused { OnErr result (out.new.items ≡ out.old.items) }
{
    out.extend_from_slice(bytes)?;
    Ok(())
}

/// Appends the decimal digits of a number. After `NoMemory` `out` holds the bytes that it held
/// before.
#[inline]
pub fn append_decimal(out: &mut Vec<u8>, n: u64) -> Result<(), NoMemory>
    ensures ok { OnOk result (out.new.items ≡ out.old.items ++ decimal n) }
    ensures refused { OnErr result (out.new.items ≡ out.old.items) }
{
    let mut digits = [0; 20];
    let start = itoa::write_digits(n, &mut digits, 20);
    append(out, &digits[start..])
}

/// Appends the decimal digits of a number and a byte behind them. After `NoMemory` `out` holds the
/// bytes that it held before.
#[inline]
pub fn append_decimal_and(out: &mut Vec<u8>, n: u64, last: u8) -> Result<(), NoMemory>
    ensures ok { OnOk result (out.new.items ≡ out.old.items ++ (decimal n ++ last ∷ [])) }
    ensures refused { OnErr result (out.new.items ≡ out.old.items) }
{
    let mut digits = [last; 21];
    let start = itoa::write_digits(n, &mut digits, 20);
    append(out, &digits[start..])
}

/// Takes off what was appended to the first `len` bytes where memory ran out. The result is handed
/// on.
pub fn cut_back(out: &mut Vec<u8>, len: usize, done: Result<(), NoMemory>) -> Result<(), NoMemory>
    ensures same { result ≡ done }
    ensures ok { OnOk result (out.new.items ≡ out.old.items) }
    ensures refused { OnErr result (out.new.items ≡ take len out.old.items) }
{
    if done.is_err() {
        out.truncate(len);
    }
    done
}
