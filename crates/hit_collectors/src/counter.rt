// A box in fixed room.
ghost use Rattle.std.specs.Prelude.{◌≡◌, length, replicate, string_bytes, IfOk, IsOk};
ghost use Rattle.hit_collectors.specs.Tallies.{raised, number_count};

use crate::counting::{counted_by, number_count};
use crate::report::append_report;
use crate::{Collector, Kind};
use kb_geometry::{NoMemory, cut_back};
use pattern_images::Hit;

// How many numbers there is room for: those of the kind that has most.
const ROOM: usize = 31;

/// A box that keeps its numbers in fixed room. Its `take` allocates nothing.
#[derive(Drop)]
pub struct Counter {
    name: String,
    kind: Kind,
    numbers: [u64; ROOM],
    pub(crate) ghost room: { length numbers ≡ 31 },
}

impl Counter {
    ghost use Rattle.hit_collectors.specs.Counters.{told_by};

    /// A counter with this name and kind that has no hits: all its numbers are 0. Nothing is
    /// allocated, so `NoMemory` never comes.
    pub fn new(name: String, kind: Kind) -> Result<Counter, NoMemory>
        ensures ok { IsOk result }
        ensures told { IfOk result (λ counter. told_by counter ≡ record {
          name = string_bytes name;
          kind = kind;
          numbers = replicate (number_count kind) 0;
        }) }
    {
        Ok(Counter {
            name,
            kind,
            numbers: [0; ROOM],
        })
    }
}

impl Collector for Counter {
    ghost use Rattle.hit_collectors.specs.Counters.{told_by};

    ghost tally = { told_by };

    fn name(&self) -> &str {
        &self.name
    }

    fn kind(&self) -> Kind {
        self.kind
    }

    fn take(&mut self, hit: &Hit) -> Result<(), NoMemory> {
        let i = counted_by(self.kind, hit);
        self.numbers[i] = one_more(self.numbers[i]);
        Ok(())
    }

    fn report(&self, out: &mut Vec<u8>) -> Result<(), NoMemory> {
        let len = out.len();
        let numbers = &self.numbers[..number_count(self.kind)];
        let done = append_report(out, &self.name, self.kind, numbers);
        cut_back(out, len, done)
    }
}

// A number raised by one, but not beyond the greatest.
#[tactic(auto, unfolding(crate::specs::Tallies::greatest))]
#[inline]
pub(crate) fn one_more(number: u64) -> u64
    ensures { result ≡ raised number 1 }
{
    number.saturating_add(1)
}
