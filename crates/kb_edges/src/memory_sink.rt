// A sink in memory.
ghost use Rattle.std.specs.Prelude.{
  ◌≡◌,
  ◌≢◌,
  ◌≤◌,
  ◌↔◌,
  Some,
  ◌++◌,
  length,
  Contains,
  IsErrOf,
  IfOk,
  OnOk,
  OnErr,
};
ghost use Rattle.kb_edges.specs.Faults.{next_count};

use crate::plan::FailurePlan;
use crate::{Sink, SinkError};

/// Bytes written to memory. It fails exactly at the calls that it is told to, numbered from 0.
#[derive(Drop)]
pub struct MemorySink {
    bytes: Vec<u8>,
    plan: FailurePlan,
}

impl MemorySink {
    ghost use Rattle.kb_edges.specs.Memory.{sink_written, sink_fails, sink_calls, sink_faults};

    /// A sink that holds these bytes, and fails at the calls of these numbers.
    pub fn new(written: Vec<u8>, fails: Vec<u32>) -> MemorySink
        ensures written { sink_written result ≡ written.items }
        ensures fails { sink_fails result ≡ fails.items }
        ensures calls { sink_calls result ≡ 0 }
        ensures faults { sink_faults result ≡ 0 }
    {
        MemorySink {
            bytes: written,
            plan: FailurePlan::new(fails),
        }
    }

    /// The bytes written.
    pub fn written(&self) -> &[u8]
        ensures { result.now ≡ sink_written self.now }
    {
        &self.bytes
    }

    /// The numbers of the calls that fail.
    pub fn fails(&self) -> &[u32]
        ensures { result.now ≡ sink_fails self.now }
    {
        &self.plan.fails
    }
}

impl Sink for MemorySink {
    ghost use Rattle.kb_edges.specs.Memory.{sink_written, sink_fails, sink_calls, sink_faults};

    ghost written = { λ sink. Some (sink_written sink) };

    ghost faults = { λ sink. sink_faults sink };

    /// Takes the whole piece.
    fn write(&mut self, bytes: &[u8]) -> Result<usize, SinkError>
        ensures fails { IsErrOf result SinkError.Failed
            ↔ Contains (sink_fails self.old) (sink_calls self.old) }
        ensures whole { IfOk result (λ n. n ≡ length bytes.now) }
        ensures appended { OnOk result (sink_written self.new
            ≡ sink_written self.old ++ bytes.now) }
        ensures kept { OnErr result (sink_written self.new ≡ sink_written self.old) }
        ensures later { sink_faults self.old ≤ sink_faults self.new }
        ensures same_fails { sink_fails self.new ≡ sink_fails self.old }
        ensures calls { sink_calls self.new ≡ next_count (sink_calls self.old) }
        ensures faults { result ≢ Err SinkError.Failed →
            sink_faults self.new ≡ sink_faults self.old }
        ensures faults_rise { IsErrOf result SinkError.Failed →
            sink_faults self.new ≡ next_count (sink_faults self.old) }
    {
        if self.plan.fails_now() {
            return Err(SinkError::Failed);
        }
        self.bytes.extend_from_slice(bytes)?;
        Ok(bytes.len())
    }
}
