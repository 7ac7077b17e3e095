// How an audit ends.
use std::fmt;

/// How an audit ended.
#[derive(Clone, Copy, Debug, PartialEq, Eq)]
pub enum AuditStatus {
    /// The record was audited, and what is said of it was written.
    Done,
    /// The script isn't in the grammar, or it is too long. The folder wasn't asked, and nothing was
    /// written.
    BadScript {
        /// The least bad line, from 1. In a script that is too long it is sought before the line
        /// that holds the byte past the greatest length, and is that line where none is bad.
        line: u32,
    },
    /// The words of the command line aren't lawful. Nothing was read, asked or written.
    BadWords,
    /// The script could not be read. The folder wasn't asked, and nothing was written.
    ScriptUnread,
    /// What is said of the record could not be written. What was written is a prefix of it.
    SinkFault,
    /// Want of memory. What was written is a prefix of what is said of the record, or nothing was
    /// written.
    NoMemory,
    /// The folder could not be read, or it has no record under the path. Nothing was written.
    FolderUnread,
}

// What an audit that ended so would tell a person.
impl fmt::Display for AuditStatus {
    fn fmt<W: fmt::Write>(&self, f: &mut fmt::Formatter<W>) -> fmt::Result {
        match self {
            AuditStatus::Done => f.write_str("done"),
            AuditStatus::BadScript { line } => {
                write!(f, "line {line} of the script is not a statement")
            }
            AuditStatus::BadWords => f.write_str("words: [--batch N] [--serial]"),
            AuditStatus::ScriptUnread => f.write_str("the script could not be read"),
            AuditStatus::SinkFault => f.write_str("the output could not be written"),
            AuditStatus::NoMemory => f.write_str("out of memory"),
            AuditStatus::FolderUnread => f.write_str("the folder could not be read"),
        }
    }
}
