// Which games had which number in one corner.
ghost use Rattle.std.specs.Prelude.{◌≡◌, ℕ, ◌<◌, ◌-◌, ◌↔◌, [], Contains, IfOk};
ghost use Rattle.std.specs.List.Sorted.{IsStrictlyIncreasing};
ghost use Rattle.corner_index.specs.CornerGames.{AreBelow, AreEntriesOfBoth, entry};
ghost use Rattle.corner_index.specs.Entries.{AreRising, IsFirstBehind, IsFirstFrom};

use crate::entry_lists::{EntryLists, joined, of_one_game};
use kb_geometry::NoMemory;
use std::alloc::Global;
use std::marker::Model;

// The numbers of a corner, ascending, and beside each a game that had it, by its place in a list.
// Games with one number stand in order.
#[derive(Debug, Drop)]
pub(crate) struct CornerGames {
    lists: EntryLists,
}

impl Model for CornerGames {
    ghost use Rattle.std.specs.Prelude.{List};
    ghost use Rattle.corner_index.specs.CornerGames.{Entry};
    ghost use Rattle.corner_index.specs.Entries.{AreOrdered, entries_of};

    ghost Value = { List Entry };

    ghost view = { λ c. entries_of c.lists.keys.items c.lists.games.items };

    ghost invariant = { λ c. AreOrdered c.lists.keys.items c.lists.games.items };
}

impl CornerGames {
    // No entry. It takes no memory.
    pub(crate) fn empty(alloc: Global) -> CornerGames
        ensures { result ≡ [] }
    {
        CornerGames {
            lists: EntryLists::empty(alloc),
        }
    }

    // The entries of one game, whose numbers these are.
    pub(crate) fn of(alloc: Global, keys: &[u64]) -> Result<CornerGames, NoMemory>
        requires { IsStrictlyIncreasing keys.now }
        ensures { IfOk result (λ entries. (key g : ℕ) →
            Contains entries (entry key g) ↔ ((g < 1) × Contains keys.now key)) }
    {
        Ok(CornerGames {
            lists: of_one_game(alloc, keys)?,
        })
    }

    // The entries of the first, whose games are fewer than so many, and those of the second, with
    // their games moved on by so many.
    pub(crate) fn join(
        alloc: Global,
        a: &CornerGames,
        b: &CornerGames,
        first: u32,
    ) -> Result<CornerGames, NoMemory>
        requires before { AreBelow a.now first }
        requires fits { AreBelow b.now (400000 - first) }
        ensures { IfOk result (AreEntriesOfBoth a.now b.now first) }
    {
        Ok(CornerGames {
            lists: joined(alloc, &a.lists, &b.lists, first)?,
        })
    }

    // The games with this number, ascending.
    pub(crate) fn games_with(&self, key: u64) -> &[u32]
        ensures exact { (g : ℕ) → Contains result.now g ↔ Contains self.now (entry key g) }
        ensures ascending { IsStrictlyIncreasing result.now }
    {
        let first = first_from(&self.lists.keys, key);
        let end = first_behind(&self.lists.keys, key);
        &self.lists.games[first..end]
    }
}

// How many of the ascending numbers are less than this one.
fn first_from(keys: &[u64], key: u64) -> usize
    requires { AreRising keys.now }
    ensures { IsFirstFrom keys.now key result }
{
    let mut low = 0;
    let mut high = keys.len();
    while low < high {
        let middle = low + (high - low) / 2;
        if keys[middle] < key {
            low = middle + 1;
        } else {
            high = middle;
        }
    }
    low
}

// How many of the ascending numbers are at most this one.
fn first_behind(keys: &[u64], key: u64) -> usize
    requires { AreRising keys.now }
    ensures { IsFirstBehind keys.now key result }
{
    match key.checked_add(1) {
        Some(next) => first_from(keys, next),
        None => keys.len(),
    }
}
