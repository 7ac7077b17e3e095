// Reading a script.
ghost use Rattle.std.specs.Prelude.{
  ◌≡◌,
  ◌≤◌,
  ◌<◌,
  ◌+◌,
  ◌++◌,
  [],
  Some,
  IfOk,
  IsErrOf,
  OnOk,
  length,
  take,
  drop,
  vec_len,
};
ghost use Rattle.kb_edges.specs.Faults.{Rose};
ghost use Rattle.kb_edges.specs.Told.{IfTold};
ghost use Rattle.serial_run.specs.declared.read.ReadScriptError.TheVariants.{NoMemory, Unread};

use kb_edges::{ReadFailed, Source};
use query_script::MAX_SCRIPT;
use std::alloc::{AllocError, Global};
use std::error::Error;
use std::fmt;

// Why a script was not read.
#[derive(Clone, Copy, Debug, PartialEq, Eq)]
pub(crate) enum ReadScriptError {
    /// A read failed.
    Unread,
    /// Want of memory.
    NoMemory,
}

impl fmt::Display for ReadScriptError {
    fn fmt<W: fmt::Write>(&self, f: &mut fmt::Formatter<W>) -> fmt::Result {
        f.write_str(match self {
            ReadScriptError::Unread => "a read failed",
            ReadScriptError::NoMemory => "out of memory",
        })
    }
}

impl Error for ReadScriptError {}

impl From<ReadFailed> for ReadScriptError {
    ghost from_gives = { λ _ e. e ≡ Unread };

    fn from(_: ReadFailed) -> Self {
        ReadScriptError::Unread
    }
}

impl From<AllocError> for ReadScriptError {
    ghost from_gives = { λ _ e. e ≡ NoMemory };

    fn from(_: AllocError) -> Self {
        ReadScriptError::NoMemory
    }
}

// How many bytes are read at once.
const PIECE: usize = 4096;

// Reads into a piece, and adds what came to a text. None is the end.
fn read_piece<S: Source>(
    script: &mut S,
    piece: &mut [u8],
    text: &mut Vec<u8>,
) -> Result<usize, ReadScriptError>
    requires { 0 < length piece.old }
    ensures bound { IfOk result (λ n. n ≤ length piece.old) }
    ensures len { IfOk result (λ n. vec_len text.new ≡ vec_len text.old + n) }
    ensures added { IfTold (S.left script.old)
        (λ rest. IfOk result (λ n. text.new.items ≡ text.old.items ++ take n rest)) }
    ensures taken { IfTold (S.left script.old)
        (λ rest. IfOk result (λ n. S.left script.new ≡ Some (drop n rest))) }
    ensures end { IfTold (S.left script.old) (λ rest. IfOk result (λ n. n ≡ 0 → rest ≡ [])) }
    ensures later { S.faults script.old ≤ S.faults script.new }
    ensures unread { IsErrOf result ReadScriptError.Unread →
        Rose (S.faults script.old) (S.faults script.new) }
{
    let count = script.read(piece)?;
    text.extend_from_slice(&piece[..count])?;
    Ok(count)
}

// Reads a script to its end, or one byte past its greatest length.
pub(crate) fn read_text<S: Source>(
    alloc: Global,
    script: &mut S,
) -> Result<Vec<u8>, ReadScriptError>
    ensures text { IfTold (S.left script.old)
        (λ bytes. IfOk result (λ text. text.items ≡ take 1048577 bytes)) }
    ensures left { IfTold (S.left script.old)
        (λ bytes. OnOk result (S.left script.new ≡ Some (drop 1048577 bytes))) }
    ensures most { IfOk result (λ text. vec_len text ≤ 1048577) }
    ensures later { S.faults script.old ≤ S.faults script.new }
    ensures unread { IsErrOf result ReadScriptError.Unread →
        Rose (S.faults script.old) (S.faults script.new) }
{
    let mut text = Vec::new(alloc);
    let mut buffer = [0u8; PIECE];
    while text.len() <= MAX_SCRIPT {
        let room = PIECE.min(MAX_SCRIPT + 1 - text.len());
        if read_piece(script, &mut buffer[..room], &mut text)? == 0 {
            break;
        }
    }
    Ok(text)
}
