// Made games, which have their turn one batch after another.
ghost use Rattle.std.specs.Prelude.{
  ◌≡◌,
  ◌⊎◌,
  ◌↔◌,
  ◌+◌,
  ◌*◌,
  ◌<◌,
  ◌≤◌,
  [],
  None,
  Option,
  List,
  ℕ,
  IfOk,
  IfSome,
};
ghost use Rattle.kb_edges.specs.Files.{File};
ghost use Rattle.import_work.specs.declared.import.Work.TheVariants as work;
ghost use Rattle.import_work.specs.ImportFields.{IsMadeKept, TakesOne, left_of, taken_of};
ghost use Rattle.import_work.specs.Made.{HasRoomForMade};

use crate::making::made_segment;
use crate::outcome::{Counts, MAX_BASE_NODES};
use kb_geometry::NoMemory;
use made_games::MADE_NODES;
use segment_store::{MAX_BASE_GAMES, Segment};
use std::alloc::Global;
use std::thread::Threads;

// So many made games, of which the first begins with `start`, and what became of those that had their
// turn: so many were added, and for so many there was no room.
#[derive(Clone, Copy, Drop)]
pub(crate) struct MadeWork {
    pub games: u32,
    pub start: u32,
    pub added: u32,
    pub full: u32,
}

impl MadeWork {
    // Makes the next games, so many or as many as are left, for a base with these counts. Gives the
    // segment of those for which there is room and the counts with it, or `None` where no game is
    // left.
    pub(crate) fn next_segment<R: Threads + Sync>(
        &mut self,
        rt: &R,
        alloc: Global,
        batch: u32,
        before: Counts,
    ) -> Result<Option<(Segment, Counts)>, NoMemory>
        requires some { 1 ≤ batch }
        requires kept { IsMadeKept self.old }
        ensures ended { IfOk result (λ taken. (taken ≡ None) ↔ (left_of (work.Made self.old) ≡ [])) }
        ensures still { IfOk result (λ taken. taken ≡ None → self.new ≡ self.old) }
        ensures step { IfOk result (λ taken. IfSome taken (λ r. (told : Option (List File))
            (faults : ℕ) → TakesOne told batch (work.Made self.old) (work.Made self.new) before r.1
            r.0 faults faults)) }
        ensures moved { IfOk result (λ taken. IfSome taken (λ _.
            taken_of (work.Made self.old) < taken_of (work.Made self.new))) }
        ensures passed { taken_of (work.Made self.old) ≤ taken_of (work.Made self.new) }
        ensures kept { IsMadeKept self.new }
    {
        let done = self.added + self.full;
        let left = self.games - done;
        if left == 0 {
            return Ok(None);
        }
        let count = left.min(batch);
        let fit = room_for(before, count);
        let segment = made_segment(rt, alloc, self.start, done, fit)?;
        self.added += fit;
        self.full += count - fit;
        let after = Counts {
            games: before.games + fit,
            nodes: before.nodes + fit * MADE_NODES,
        };
        Ok(Some((segment, after)))
    }
}

// For how many of so many made games a base with these counts has room.
fn room_for(before: Counts, count: u32) -> u32
    ensures few { result ≤ count }
    ensures room { (result ≡ 0) ⊎ HasRoomForMade before result }
    ensures most { result < count → ¬ HasRoomForMade before (result + 1) }
{
    let games = MAX_BASE_GAMES.saturating_sub(before.games);
    let nodes = MAX_BASE_NODES.saturating_sub(before.nodes) / MADE_NODES;
    count.min(games).min(nodes)
}
