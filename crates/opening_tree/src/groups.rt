// The openings of the entries and next moves so far, by their canonical positions, in the order of
// their first entries.
ghost use Rattle.std.specs.Prelude.{
  ◌≡◌,
  ◌<◌,
  ◌≤◌,
  ◌++◌,
  ◌∷◌,
  [],
  ℕ,
  All,
  IfOk,
  IfSome,
  List,
  OnOk,
  length,
  slice_index_or,
};
ghost use Rattle.kb_geometry.specs.declared.shape.Point.{Point};
ghost use Rattle.kb_geometry.specs.declared.shape.Shape.{Shape};
ghost use Rattle.kb_geometry.specs.Board.{IsOnBoard};
ghost use Rattle.opening_tree.specs.Entries.{Entry};
ghost use Rattle.opening_tree.specs.Groups.{
  AreFollowing,
  Grouped,
  IsGroupWithin,
  groups_of,
  with_entry,
  with_group,
  with_groups,
  with_next,
};
ghost use Rattle.opening_tree.specs.NextMoves.{NextAt};
ghost use Rattle.opening_tree.specs.Packing.{words_for};
ghost use Rattle.opening_tree.specs.StoredGroups.{
  AreKeptIn,
  AreKeys,
  IsKeyAt,
  IsReadyForEntry,
  IsReadyForGroup,
  IsReadyForGroups,
  Stored,
  entry_shown,
  group_shown,
  groups_shown,
  next_shown,
};

use crate::answer::NextMove;
use crate::opening_so_far::OpeningCounts;
use crate::opening_table::OpeningTable;
use game_tree::Move;
use kb_geometry::{NoMemory, Outcome};
use std::alloc::Global;

// An entry: the number of its game, its node, and how the game ended.
#[derive(Clone, Copy, Debug)]
pub(crate) struct EntryAt {
    pub(crate) game: u32,
    pub(crate) node: u32,
    pub(crate) outcome: Outcome,
}

// Adds an entry with this canonical position, packed in words, and gives the number of its opening.
// The words are copied only where the opening is new. The only error is `NoMemory`.
pub(crate) fn add_entry(
    alloc: Global,
    openings: &mut OpeningTable,
    words: &[u64],
    entry: EntryAt,
) -> Result<usize, NoMemory>
    requires width { length words.now ≡ openings.old.width }
    requires ready { (points : ℕ) × IsReadyForEntry points words.now openings.old.entries }
    ensures width { openings.new.width ≡ openings.old.width }
    ensures added { IfOk result (λ at. (points : ℕ) →
        IsReadyForEntry points words.now openings.old.entries →
        AreKeys points openings.new.entries
        × (groups_shown points openings.new.entries ≡ with_entry
        (groups_shown points openings.old.entries) (entry_shown points words.now entry))
        × IsKeyAt openings.new.entries at words.now
        × AreKeptIn openings.old.entries openings.new.entries) }
{
    let none = OpeningCounts::none(entry.game, entry.node);
    let at = openings.find_or_begin(alloc, words, none)?;
    openings.count(at, entry.outcome);
    Ok(at)
}

// Adds a next move from the canonical position of the opening with this number. The only error is
// `NoMemory`.
pub(crate) fn add_next(
    openings: &mut OpeningTable,
    at: usize,
    played: Move,
    outcome: Outcome,
) -> Result<(), NoMemory>
    requires { (points : ℕ) × (words : List ℕ) × IsReadyForEntry points words openings.old.entries
        × IsKeyAt openings.old.entries at words }
    ensures width { openings.new.width ≡ openings.old.width }
    ensures added { OnOk result ((points : ℕ) (words : List ℕ) →
        IsReadyForEntry points words openings.old.entries →
        IsKeyAt openings.old.entries at words →
        AreKeys points openings.new.entries
        × (groups_shown points openings.new.entries ≡ with_next
        (groups_shown points openings.old.entries) (next_shown points words played outcome))
        × AreKeptIn openings.old.entries openings.new.entries) }
{
    openings.count_next(at, played, outcome)?;
    Ok(())
}

// Adds the openings of more games to openings. The only error is `NoMemory`.
pub(crate) fn add_openings(
    alloc: Global,
    openings: &mut OpeningTable,
    more: &OpeningTable,
) -> Result<(), NoMemory>
    requires { (points : ℕ) × IsReadyForGroups points more.now.entries openings.old.entries
        × (openings.old.width ≡ words_for points) }
    ensures width { openings.new.width ≡ openings.old.width }
    ensures added { OnOk result ((points : ℕ) →
        IsReadyForGroups points more.now.entries openings.old.entries →
        AreKeys points openings.new.entries
        × (groups_shown points openings.new.entries ≡ with_groups
        (groups_shown points openings.old.entries) (groups_shown points more.now.entries))) }
{
    let mut rows = Vec::new(alloc);
    for at in 0..more.len() {
        add_opening(alloc, openings, more, at, &mut rows)?;
    }
    Ok(())
}

// Adds the opening of more games that has this number there, with a list for its rows. The only error
// is `NoMemory`.
fn add_opening(
    alloc: Global,
    openings: &mut OpeningTable,
    more: &OpeningTable,
    at: usize,
    rows: &mut Vec<NextMove>,
) -> Result<(), NoMemory>
    requires in_range { at < length more.now.entries }
    requires ready { (points : ℕ) × ((d : Stored) →
        IsReadyForGroup points (slice_index_or more.now.entries at d) openings.old.entries)
        × (openings.old.width ≡ words_for points) }
    ensures width { openings.new.width ≡ openings.old.width }
    ensures added { OnOk result ((points : ℕ) (d : Stored) →
        IsReadyForGroup points (slice_index_or more.now.entries at d) openings.old.entries →
        AreKeys points openings.new.entries
        × (groups_shown points openings.new.entries ≡ with_group
        (groups_shown points openings.old.entries)
        (group_shown points (slice_index_or more.now.entries at d)))) }
{
    more.copy_rows(at, rows)?;
    let counts = more.counts(at);
    let none = OpeningCounts::none(counts.game, counts.node);
    let own = openings.find_or_begin(alloc, more.key(at), none)?;
    openings.count_more(own, counts, rows.as_slice())?;
    Ok(())
}

// One entry more, and one next move more, make of the openings of some entries and next moves those
// of one more, and the openings of more entries and next moves those of all. No opening counts more
// of them than there are.
fn openings_grow_one_by_one()
    ensures entry { (shape : Shape) (entries : List Entry) (nexts : List NextAt) (e : Entry) →
        AreFollowing entries nexts →
        with_entry (groups_of shape entries nexts) e ≡ groups_of shape (entries ++ e ∷ []) nexts }
    ensures next { (shape : Shape) (entries : List Entry) (nexts : List NextAt) (n : NextAt) →
        IfSome n.played.point (λ (p : Point). IsOnBoard shape p) →
        with_next (groups_of shape entries nexts) n ≡ groups_of shape entries (nexts ++ n ∷ []) }
    ensures join { (shape : Shape) (entries more : List Entry) (nexts others : List NextAt) →
        AreFollowing entries nexts → AreFollowing more others →
        with_groups (groups_of shape entries nexts) (groups_of shape more others)
        ≡ groups_of shape (entries ++ more) (nexts ++ others) }
    ensures bounds { (most : ℕ) (shape : Shape) (entries : List Entry) (nexts : List NextAt) →
        length entries ≤ most → length nexts ≤ most →
        All (λ (g : Grouped). IsGroupWithin most g.opening) (groups_of shape entries nexts) }
{}
