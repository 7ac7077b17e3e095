// The groups of double games. indexmap keeps their keys in the order of first sight.
ghost use Rattle.std.specs.Prelude.{◌≡◌, ◌≤◌, IfOk, OnOk, length};
ghost use Rattle.std.specs.List.{flat_map};
ghost use Rattle.session_core.specs.Doubles.{groups_of, tells_a_point};
ghost use Rattle.session_core.specs.Grouping.{
  entries_of,
  entry_of,
  group_in,
  is_group,
  key_of,
  key_with,
  keys_with,
  with_number,
};

use dyer_signature::Signature;
use indexmap::IndexMap;
use kb_geometry::{NoMemory, Shape};
use segment_store::FinishedGame;
use std::alloc::Global;

// What double games have in common: the board, and the canonical form of the signature.
#[derive(Clone, Copy, Debug, PartialEq, Eq, Hash)]
pub(crate) struct StoredKey {
    pub(crate) shape: Shape,
    pub(crate) form: Signature,
}

impl StoredKey {
    // The key of a game with this canonical form.
    fn of(game: &FinishedGame, form: &Signature) -> StoredKey
        ensures { key_of result ≡ key_with game.now form.now }
    {
        StoredKey {
            shape: game.tree().shape(),
            form: *form,
        }
    }

    // Whether a byte of the signature isn't `?`.
    fn tells_a_point(&self) -> bool
        ensures { result ≡ tells_a_point (key_of self.now) }
    {
        self.form.bytes.iter().any(|byte| *byte != b'?')
    }
}

// The numbers of the games with one key, ascending. A game that is the only one takes no list.
#[derive(Debug, Drop)]
pub(crate) struct Numbers {
    pub(crate) first: u32,
    pub(crate) others: Vec<u32>,
}

// The games with each key, in the order in which the keys are seen first.
pub(crate) type GamesByKey = IndexMap<StoredKey, Numbers>;

// The games with each key, from the games and their canonical forms. The only error is `NoMemory`.
pub(crate) fn games_by_key(
    alloc: Global,
    games: &[&FinishedGame],
    forms: &[Signature],
) -> Result<GamesByKey, NoMemory>
    requires most { length games.now ≤ 400000 }
    requires as_many { length forms.now ≡ length games.now }
    ensures { IfOk result (λ by_key. flat_map group_in (entries_of by_key.entries)
        ≡ groups_of (keys_with games.now forms.now)) }
{
    let mut by_key = IndexMap::new(alloc);
    for number in 0..games.len() {
        let key = StoredKey::of(games[number], &forms[number]);
        add_game(alloc, &mut by_key, key, number as u32)?;
    }
    Ok(by_key)
}

// Adds the number of a game with this key.
fn add_game(
    alloc: Global,
    by_key: &mut GamesByKey,
    key: StoredKey,
    number: u32,
) -> Result<(), NoMemory>
    ensures { OnOk result (entries_of by_key.new.entries
        ≡ with_number (entries_of by_key.old.entries) (key_of key) number) }
{
    match by_key.get_index_of(&key) {
        Some(at) => by_key[at].others.push(number)?,
        None => {
            let numbers = Numbers {
                first: number,
                others: Vec::new(alloc),
            };
            by_key.insert(key, numbers)?;
        }
    }
    Ok(())
}

// Whether the games with a key are a group of double games: there are two or more, and the
// signature tells a point.
pub(crate) fn are_group(key: &StoredKey, numbers: &Numbers) -> bool
    ensures { result ≡ is_group (entry_of (key.now, numbers.now)) }
{
    !numbers.others.is_empty() && key.tells_a_point()
}
