// A source over any reader of the system.
ghost use Rattle.std.specs.Prelude.{◌≡◌, ◌≤◌, None, OnErr, OnOk};
ghost use Rattle.std.specs.Io.{ReadsAtMost};
ghost use Rattle.std.specs.Io.KnownBytes.{ReadConsumes};
ghost use Rattle.kb_edges.specs.Faults.{next_count};

use crate::{ReadFailed, Source};
use std::io::Read;

/// A reader. It tells nothing of the bytes left. Each error of the reader is a fault.
#[derive(Drop)]
pub struct RealSource<R: Read> {
    reader: R,
    faults: u64,
}

impl<R: Read> RealSource<R> {
    ghost use Rattle.kb_edges.specs.Real.{reader_of, real_source_faults};

    /// A source over this reader, with no fault so far.
    pub fn new(reader: R) -> RealSource<R>
        ensures reader { reader_of result ≡ reader }
        ensures faults { real_source_faults result ≡ 0 }
    {
        RealSource { reader, faults: 0 }
    }
}

impl<R: Read> Source for RealSource<R> {
    ghost use Rattle.kb_edges.specs.Real.{reader_of, real_source_faults};

    ghost left = { λ _. None };

    ghost faults = { real_source_faults };

    /// Passes one read on.
    fn read(&mut self, into: &mut [u8]) -> Result<usize, ReadFailed>
        ensures bound { ReadsAtMost result into.new }
        ensures bytes { ReadConsumes (R.remaining (reader_of self.old))
            (R.remaining (reader_of self.new)) result into.new }
        ensures later { real_source_faults self.old ≤ real_source_faults self.new }
        ensures faults { OnOk result (real_source_faults self.new ≡ real_source_faults self.old) }
        ensures faults_rise { OnErr result (real_source_faults self.new
            ≡ next_count (real_source_faults self.old)) }
    {
        match self.reader.read(into) {
            Ok(count) => Ok(count),
            Err(_) => {
                self.faults = self.faults.saturating_add(1);
                Err(ReadFailed)
            }
        }
    }
}
