// The games of a block that may have had each stone of a placement beside an empty cell.
ghost use Rattle.std.specs.Prelude.{◌≡◌, ◌+◌, ◌<◌, ℕ, IfSome, length, slice_index};
ghost use Rattle.kb_geometry.specs.Board.{point_count};
ghost use Rattle.candidate_sieve.specs.Ordered.{ArePairsBelow, IsCutInOrder};

use crate::candidates::joined;
use final_index::OrderPlanes;
use ready_images::Pair;

// What the order of stones asks of placements of a class, if it is known: that each of their stones
// beside a cell that must be empty may have stood while the point under the cell was empty. The first
// placement stands behind the base, each of the others behind the next point.
#[derive(Clone, Copy, Debug)]
pub(crate) struct SpanOrder<'a> {
    pub(crate) order: Option<&'a OrderPlanes>,
    pub(crate) base: u16,
    pub(crate) pairs: &'a [Pair],
}

impl<'a> SpanOrder<'a> {
    // Those of some games that may have the first placement.
    pub(crate) fn games_at(&self, games: u64) -> u64
        requires { IfSome self.now.order (λ o. ArePairsBelow (point_count o.now.shape)
            self.now.base self.now.pairs.now 1) }
        ensures { IsCutInOrder self.now.order self.now.base self.now.pairs.now
            (length self.now.pairs.now) games result }
    {
        let Some(order) = self.order else {
            return games;
        };
        let mut left = games;
        for k in 0..self.pairs.len() {
            if left == 0 {
                return left;
            }
            let Pair { stone, empty } = self.pairs[k];
            left &= order.word(self.base + stone, self.base + empty);
        }
        left
    }

    // Keeps in each word, one for each placement, the games that may have it. Where no word has a game
    // left, the rest isn't asked.
    pub(crate) fn keep(&self, words: &mut [u64])
        requires { IfSome self.now.order (λ o. ArePairsBelow (point_count o.now.shape)
            self.now.base self.now.pairs.now (length words.old)) }
        ensures count { length words.new ≡ length words.old }
        ensures kept { (k : ℕ) → k < length words.old →
            IsCutInOrder self.now.order (self.now.base + k) self.now.pairs.now
            (length self.now.pairs.now) (slice_index words.old k) (slice_index words.new k) }
    {
        let Some(order) = self.order else {
            return;
        };
        for k in 0..self.pairs.len() {
            if joined(words) == 0 {
                return;
            }
            let Pair { stone, empty } = self.pairs[k];
            order.keep(self.base + stone, self.base + empty, words);
        }
    }
}
