// Numbers of a corner and the games that had them, as two lists.
ghost use Rattle.std.specs.Prelude.{
  ◌≡◌,
  ◌<◌,
  ◌≤◌,
  ◌+◌,
  ◌-◌,
  [],
  ◌↔◌,
  IfOk,
  IsTrue,
  length,
  replicate,
  slice_index,
};
ghost use Rattle.corner_index.specs.Entries.{AreAllBelow, AreListsJoined, AreOrdered};

use kb_geometry::NoMemory;
use std::alloc::Global;

// Numbers, and beside each a game that had it.
#[derive(Debug, Drop)]
pub(crate) struct EntryLists {
    pub(crate) keys: Vec<u64>,
    pub(crate) games: Vec<u32>,
}

impl EntryLists {
    // No entry. It takes no memory.
    pub(crate) fn empty(alloc: Global) -> EntryLists
        ensures keys { result.keys.items ≡ [] }
        ensures games { result.games.items ≡ [] }
    {
        EntryLists {
            keys: Vec::new(alloc),
            games: Vec::new(alloc),
        }
    }
}

// The entries of one game, the first of a list, with these numbers.
pub(crate) fn of_one_game(alloc: Global, keys: &[u64]) -> Result<EntryLists, NoMemory>
    ensures keys { IfOk result (λ lists. lists.keys.items ≡ keys.now) }
    ensures games { IfOk result (λ lists. lists.games.items ≡ replicate (length keys.now) 0) }
{
    let games = vec![in alloc; 0u32; keys.len()]?;
    Ok(EntryLists {
        keys: Vec::from_slice(alloc, keys)?,
        games,
    })
}

// The entries of both in order, those of the second with their games moved on by so many.
pub(crate) fn joined(
    alloc: Global,
    a: &EntryLists,
    b: &EntryLists,
    first: u32,
) -> Result<EntryLists, NoMemory>
    requires ordered_a { AreOrdered a.now.keys.items a.now.games.items }
    requires ordered_b { AreOrdered b.now.keys.items b.now.games.items }
    requires before { AreAllBelow a.now.games.items first }
    requires fits { AreAllBelow b.now.games.items (400000 - first) }
    ensures ordered { IfOk result (λ all. AreOrdered all.keys.items all.games.items) }
    ensures exact { IfOk result (λ all. AreListsJoined a.now.keys.items a.now.games.items
        b.now.keys.items b.now.games.items first all.keys.items all.games.items) }
{
    let count = a.keys.len() + b.keys.len();
    let mut keys = vec![in alloc; 0u64; count]?;
    let mut games = vec![in alloc; 0u32; count]?;
    let mut i = 0;
    let mut j = 0;
    for at in 0..count {
        if takes_first(&a.keys, i, &b.keys, j) {
            keys[at] = a.keys[i];
            games[at] = a.games[i];
            i += 1;
        } else {
            keys[at] = b.keys[j];
            games[at] = first + b.games[j];
            j += 1;
        }
    }
    Ok(EntryLists { keys, games })
}

// Whether of what is left the first list has the next entry. Where both have the number it has,
// since its games come before those of the second.
fn takes_first(a: &[u64], i: usize, b: &[u64], j: usize) -> bool
    requires a { i ≤ length a.now }
    requires b { j ≤ length b.now }
    ensures { IsTrue result ↔ ((i < length a.now)
        × (j < length b.now → slice_index a.now i ≤ slice_index b.now j)) }
{
    if i == a.len() {
        return false;
    }
    j == b.len() || a[i] <= b[j]
}
