// A status and the output behind it, as text.
use case_files::CaseError;
use kb_geometry::{append, append_decimal_and};
use serial_run::Status;

/// How a run ended: its status, how many bytes of the script are left, and the output.
#[derive(Drop)]
pub(crate) struct Ended {
    pub status: Status,
    pub left: usize,
    pub output: Vec<u8>,
}

/// Appends the status and the output as one line.
pub(crate) fn append_whole(out: &mut Vec<u8>, ended: &Ended) -> Result<(), CaseError> {
    let mut lines = Vec::new(*out.allocator());
    append_status(&mut lines, ended)?;
    append(&mut lines, &ended.output)?;
    append_joined(out, &lines)
}

/// Appends the status, and how many bytes of the script are left if there are any, each as a line.
pub(crate) fn append_status(out: &mut Vec<u8>, ended: &Ended) -> Result<(), CaseError> {
    append(out, word_of(ended.status).as_bytes())?;
    if let Status::BadScript { line } = ended.status {
        append_decimal_and(out, u64::from(line), b'\n')?;
    }
    if ended.left > 0 {
        append(out, b"left ")?;
        append_decimal_and(out, ended.left as u64, b'\n')?;
    }
    Ok(())
}

fn word_of(status: Status) -> &'static str {
    match status {
        Status::Done => "done\n",
        Status::BadScript { .. } => "bad line ",
        Status::BadWords => "bad words\n",
        Status::ScriptUnread => "script unread\n",
        Status::SinkFault => "output fault\n",
        Status::NoMemory => "out of memory\n",
    }
}

/// Appends lines as one line, with ` | ` between them. A line feed at their end is no line.
pub(crate) fn append_joined(out: &mut Vec<u8>, lines: &[u8]) -> Result<(), CaseError> {
    let lines = lines.strip_suffix(b"\n").unwrap_or(lines);
    for byte in lines {
        match *byte {
            b'\n' => append(out, b" | ")?,
            byte => append(out, &[byte])?,
        }
    }
    append(out, b"\n")?;
    Ok(())
}
