// A source in memory.
ghost use Rattle.std.specs.Prelude.{
  ◌≡◌,
  ◌≤◌,
  ◌↔◌,
  Some,
  length,
  min,
  take,
  drop,
  vec_len,
  Contains,
  IsErr,
  IfOk,
  OnOk,
  OnErr,
};
ghost use Rattle.kb_edges.specs.Faults.{next_count};

use crate::plan::FailurePlan;
use crate::{ReadFailed, Source};

/// Bytes in memory to read. It fails exactly at the calls that it is told to, numbered from 0.
#[derive(Drop)]
pub struct MemorySource {
    bytes: Vec<u8>,
    taken: usize,
    plan: FailurePlan,
    ghost in_range: { taken ≤ vec_len bytes },
}

impl MemorySource {
    ghost use Rattle.kb_edges.specs.Memory.{source_left, source_fails, source_calls, source_faults};

    /// A source with these bytes left, which fails at the calls of these numbers.
    pub fn new(left: Vec<u8>, fails: Vec<u32>) -> MemorySource
        ensures left { source_left result ≡ left.items }
        ensures fails { source_fails result ≡ fails.items }
        ensures calls { source_calls result ≡ 0 }
        ensures faults { source_faults result ≡ 0 }
    {
        MemorySource {
            bytes: left,
            taken: 0,
            plan: FailurePlan::new(fails),
        }
    }

    /// The bytes left.
    pub fn left(&self) -> &[u8]
        ensures { result.now ≡ source_left self.now }
    {
        &self.bytes[self.taken..]
    }

    /// The numbers of the calls that fail.
    pub fn fails(&self) -> &[u32]
        ensures { result.now ≡ source_fails self.now }
    {
        &self.plan.fails
    }
}

impl Source for MemorySource {
    ghost use Rattle.kb_edges.specs.Memory.{source_left, source_fails, source_calls, source_faults};

    ghost left = { λ source. Some (source_left source) };

    ghost faults = { λ source. source_faults source };

    /// Gives as many bytes as fit or are left.
    fn read(&mut self, into: &mut [u8]) -> Result<usize, ReadFailed>
        ensures fails { IsErr result ↔ Contains (source_fails self.old) (source_calls self.old) }
        ensures count { IfOk result (λ n.
            n ≡ min (length into.new) (length (source_left self.old))) }
        ensures given { IfOk result (λ n. take n into.new ≡ take n (source_left self.old)) }
        ensures behind { IfOk result (λ n. drop n into.new ≡ drop n into.old) }
        ensures untouched { OnErr result (into.new ≡ into.old) }
        ensures taken { IfOk result (λ n. source_left self.new ≡ drop n (source_left self.old)) }
        ensures kept { OnErr result (source_left self.new ≡ source_left self.old) }
        ensures later { source_faults self.old ≤ source_faults self.new }
        ensures same_fails { source_fails self.new ≡ source_fails self.old }
        ensures calls { source_calls self.new ≡ next_count (source_calls self.old) }
        ensures faults { OnOk result (source_faults self.new ≡ source_faults self.old) }
        ensures faults_rise { OnErr result (source_faults self.new
            ≡ next_count (source_faults self.old)) }
    {
        if self.plan.fails_now() {
            return Err(ReadFailed);
        }
        let left = &self.bytes[self.taken..];
        let count = into.len().min(left.len());
        into[..count].copy_from_slice(&left[..count]);
        self.taken += count;
        Ok(count)
    }
}
