// Which calls of an implementation in memory fail.
ghost use Rattle.std.specs.Prelude.{◌≡◌, ◌≤◌, ◌↔◌, Contains, IsTrue, if◌then◌else◌};
ghost use Rattle.kb_edges.specs.Faults.{next_count};

/// The numbers of the calls that fail, from 0, with how many calls were made and how many failed.
#[derive(Drop)]
pub struct FailurePlan {
    pub fails: Vec<u32>,
    pub calls: u64,
    pub faults: u64,
}

impl FailurePlan {
    /// No call was made yet. The calls with these numbers, from 0, will fail.
    pub fn new(fails: Vec<u32>) -> Self
        ensures fails { result.fails.items ≡ fails.items }
        ensures calls { result.calls ≡ 0 }
        ensures faults { result.faults ≡ 0 }
    {
        FailurePlan {
            fails,
            calls: 0,
            faults: 0,
        }
    }

    /// Counts a call, and tells whether it is one of those that fail.
    pub fn fails_now(&mut self) -> bool
        ensures named { IsTrue result ↔ Contains self.old.fails.items self.old.calls }
        ensures fails { self.new.fails ≡ self.old.fails }
        ensures calls { self.new.calls ≡ next_count self.old.calls }
        ensures later { self.old.faults ≤ self.new.faults }
        ensures faults { self.new.faults
            ≡ (if result then next_count self.old.faults else self.old.faults) }
    {
        let call = self.calls;
        self.calls = call.saturating_add(1);
        let named = self.fails.iter().any(|number| u64::from(*number) == call);
        if named {
            self.faults = self.faults.saturating_add(1);
        }
        named
    }
}
