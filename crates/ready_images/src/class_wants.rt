// What a class asks of points.
ghost use Rattle.std.specs.Prelude.{◌≡◌, ◌<◌, ◌≤◌, ℕ, length};
ghost use Rattle.ready_images.specs.Wants.{ArePartedAt, IsOfRank, rank_of, want_at};

use crate::ranks::{EMPTY, STONE, rank_of};
use crate::want::Want;

/// What the placements of a class ask of points.
#[derive(Clone, Copy, Debug)]
pub struct ClassWants<'a> {
    /// What is asked.
    pub wants: &'a [Want],
    /// Each before this one is of a cell that must be a stone.
    pub mixed: usize,
    /// Each from this one on is of a cell that must be empty.
    pub empties: usize,
    pub ghost parted: { ArePartedAt mixed empties wants.now },
}

impl<'a> ClassWants<'a> {
    /// A class with these wants, which need not be those of images.
    pub fn of(wants: &'a [Want]) -> ClassWants<'a>
        ensures { result.wants.now ≡ wants.now }
    {
        let mixed = first_other(wants);
        let empties = last_others(wants, mixed);
        ClassWants {
            wants,
            mixed,
            empties,
        }
    }
}

// The first want that isn't of a cell that must be a stone; the number of wants, where there is none.
fn first_other(wants: &[Want]) -> usize
    ensures most { result ≤ length wants.now }
    ensures stones { (k : ℕ) → k < result → IsOfRank 0 (want_at wants.now k) }
{
    for k in 0..wants.len() {
        if rank_of(wants[k].cell) != STONE {
            return k;
        }
    }
    wants.len()
}

// The end of the wants that aren't of cells that must be empty, or `from`, where they end before it.
fn last_others(wants: &[Want], from: usize) -> usize
    requires { from ≤ length wants.now }
    ensures least { from ≤ result }
    ensures most { result ≤ length wants.now }
    ensures empties { (k : ℕ) → result ≤ k → k < length wants.now →
        IsOfRank 2 (want_at wants.now k) }
{
    let mut empties = wants.len();
    while empties > from && rank_of(wants[empties - 1].cell) == EMPTY {
        empties -= 1;
    }
    empties
}
