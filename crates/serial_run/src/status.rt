// How a run ends.
ghost use Rattle.std.specs.Prelude.{◌≡◌};

use crate::statements::Stopped;
use std::fmt;

/// How a run ended.
#[derive(Clone, Copy, Debug, PartialEq, Eq)]
pub enum Status {
    /// The script was read to its end, and the whole output was written.
    Done,
    /// The script isn't in the grammar, or it is too long. Nothing was imported or written.
    BadScript {
        /// The least bad line, from 1. In a script that is too long it is sought before the line
        /// that holds the byte past the greatest length, and is that line where none is bad.
        line: u32,
    },
    /// The words of the command line aren't lawful. Nothing was read, imported or written.
    BadWords,
    /// The script could not be read. Nothing was imported or written.
    ScriptUnread,
    /// The output could not be written. What was written is a prefix of a lawful output.
    SinkFault,
    /// Want of memory. What was written is a prefix of a lawful output, or nothing was written.
    NoMemory,
}

// What a run that ended so would tell a person.
impl fmt::Display for Status {
    fn fmt<W: fmt::Write>(&self, f: &mut fmt::Formatter<W>) -> fmt::Result {
        match self {
            Status::Done => f.write_str("done"),
            Status::BadScript { line } => write!(f, "line {line} of the script is not a statement"),
            Status::BadWords => f.write_str("words: [--batch N] [--serial]"),
            Status::ScriptUnread => f.write_str("the script could not be read"),
            Status::SinkFault => f.write_str("the output could not be written"),
            Status::NoMemory => f.write_str("out of memory"),
        }
    }
}

impl From<Stopped> for Status {
    ghost use Rattle.serial_run.specs.RunErrors.{status_of};

    ghost from_gives = { λ stopped status. status ≡ status_of stopped };

    fn from(stopped: Stopped) -> Self {
        match stopped {
            Stopped::SinkFault => Status::SinkFault,
            Stopped::NoMemory => Status::NoMemory,
        }
    }
}
