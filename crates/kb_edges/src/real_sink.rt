// A sink over any writer of the system.
ghost use Rattle.std.specs.Prelude.{◌≡◌, ◌<◌, ◌≤◌, None, length, take, IfOk, IsErrOf, OnErr, OnOk};
ghost use Rattle.std.specs.Io.KnownBytes.{Appends};
ghost use Rattle.kb_edges.specs.Faults.{next_count};
ghost use Rattle.kb_edges.specs.Writers.{AppendsAFront};

use crate::{Sink, SinkError};
use std::io;
use std::io::{ErrorKind, Write};

/// A writer. It tells nothing of the bytes written. Each error of the writer is a fault, and so is
/// a write that takes nothing of a piece of at least one byte.
#[derive(Drop)]
pub struct RealSink<W: Write> {
    writer: W,
    faults: u64,
}

impl<W: Write> RealSink<W> {
    ghost use Rattle.kb_edges.specs.Real.{writer_of, real_sink_faults};

    /// A sink over this writer, with no fault so far.
    pub fn new(writer: W) -> RealSink<W>
        ensures writer { writer_of result ≡ writer }
        ensures faults { real_sink_faults result ≡ 0 }
    {
        RealSink { writer, faults: 0 }
    }
}

// One write, and a flush, so that what was taken is out.
fn write_through<W: Write>(writer: &mut W, bytes: &[u8]) -> io::Result<usize>
    ensures bound { IfOk result (λ n. n ≤ length bytes.now) }
    ensures progress { IfOk result (λ n. 0 < length bytes.now → 0 < n) }
    ensures appended { IfOk result (λ n.
        Appends (W.contents writer.old) (W.contents writer.new) (take n bytes.now)) }
    ensures once { AppendsAFront (W.contents writer.old) (W.contents writer.new) bytes.now }
{
    let count = writer.write(bytes)?;
    if count == 0 && !bytes.is_empty() {
        return Err(io::Error::from(ErrorKind::WriteZero));
    }
    writer.flush()?;
    Ok(count)
}

impl<W: Write> Sink for RealSink<W> {
    ghost use Rattle.kb_edges.specs.Real.{writer_of, real_sink_faults};

    ghost written = { λ _. None };

    ghost faults = { real_sink_faults };

    /// Passes one write on. After an error the writer has no more than a front of the piece.
    fn write(&mut self, bytes: &[u8]) -> Result<usize, SinkError>
        ensures bound { IfOk result (λ n. n ≤ length bytes.now) }
        ensures progress { IfOk result (λ n. 0 < length bytes.now → 0 < n) }
        ensures appended { IfOk result (λ n.
            Appends (W.contents (writer_of self.old)) (W.contents (writer_of self.new))
            (take n bytes.now)) }
        ensures once { AppendsAFront (W.contents (writer_of self.old))
            (W.contents (writer_of self.new)) bytes.now }
        ensures failed { OnErr result (IsErrOf result SinkError.Failed) }
        ensures later { real_sink_faults self.old ≤ real_sink_faults self.new }
        ensures faults { OnOk result (real_sink_faults self.new ≡ real_sink_faults self.old) }
        ensures faults_rise { OnErr result (real_sink_faults self.new
            ≡ next_count (real_sink_faults self.old)) }
    {
        match write_through(&mut self.writer, bytes) {
            Ok(count) => Ok(count),
            Err(_) => {
                self.faults = self.faults.saturating_add(1);
                Err(SinkError::Failed)
            }
        }
    }
}
