// How much a search has done. By it a search tells whether threads are worth their start.
use candidate_sieve::Candidate;
use info_filter::Filter;

// What each thing costs, in units of some fifty instructions: a game of a block, a game of which a
// filter asks its conditions, a placement that is sieved for a block, a game in which a placement that
// is left is looked for, a hit.
const OF_GAME: u64 = 1;

const OF_ASKED_GAME: u64 = 8;

const OF_PLACEMENT: u64 = 1;

const OF_CANDIDATE: u64 = 6;

const OF_HIT: u64 = 12;

// A search that has done so much may start threads. It is some million instructions, which take about
// as long as the threads that they would spare.
const WORTH_THREADS: u64 = 20_000;

// How much a search has done, but for its hits. No clause speaks of it: what is found doesn't depend
// on it.
#[derive(Clone, Copy, Debug)]
pub(crate) struct Work {
    units: u64,
}

impl Work {
    // Nothing yet.
    pub(crate) fn none() -> Work {
        Work { units: 0 }
    }

    // These candidates are to be looked for, and nothing else.
    pub(crate) fn ahead(candidates: &[Candidate]) -> Work {
        let mut work = Work::none();
        work.add_sieved(0, candidates);
        work
    }

    // So many games were gone over, and a filter asked of each whether it accepts it.
    pub(crate) fn add_games(&mut self, filter: &Filter, count: usize) {
        let cost = if filter.conditions.as_slice().is_empty() {
            OF_GAME
        } else {
            OF_ASKED_GAME
        };
        self.add(cost, count as u64);
    }

    // So many placements were sieved for a block, and these candidates are looked for.
    pub(crate) fn add_sieved(&mut self, placements: usize, left: &[Candidate]) {
        self.add(OF_PLACEMENT, placements as u64);
        for candidate in left {
            self.add(OF_CANDIDATE, u64::from(candidate.games.count_ones()));
        }
    }

    // Whether, with so many hits, so much is done that what is left may be worth threads.
    pub(crate) fn is_much(&self, hits: usize) -> bool {
        let units = OF_HIT.saturating_mul(hits as u64);
        self.units.saturating_add(units) >= WORTH_THREADS
    }

    // So many things were done, of which each costs so much.
    fn add(&mut self, cost: u64, count: u64) {
        let units = cost.saturating_mul(count);
        self.units = self.units.saturating_add(units);
    }
}
