// Which games of a list had which number in which corner.
ghost use Rattle.std.specs.Prelude.{
  ◌≡◌,
  ℕ,
  ◌<◌,
  ◌≤◌,
  ◌-◌,
  ◌↔◌,
  List,
  [],
  ◌∷◌,
  ◌++◌,
  Contains,
  IfOk,
  length,
};
ghost use Rattle.std.specs.List.Sorted.{IsStrictlyIncreasing};
ghost use Rattle.corner_index.specs.CornerGames.{
  HaveGamesBelow,
  IsIndexOf,
  IsIndexOfBoth,
  entries_in,
  entry,
};

use crate::corner_games::CornerGames;
use crate::corner_keys::CornerKeys;
use kb_geometry::NoMemory;
use std::alloc::Global;
use std::marker::Model;

/// For each corner of a board the games of a list that had each number there, by their places in
/// the list, from 0. The corners and their numbers are those of [`CornerKeys`].
#[derive(Debug, Drop)]
pub struct CornerIndex {
    upper_left: CornerGames,
    upper_right: CornerGames,
    lower_left: CornerGames,
    lower_right: CornerGames,
}

impl Model for CornerIndex {
    ghost use Rattle.std.specs.Prelude.{List, [], ◌∷◌};
    ghost use Rattle.corner_index.specs.CornerGames.{Entry};

    ghost Value = { List (List Entry) };

    ghost view = { λ c. c.upper_left ∷ c.upper_right ∷ c.lower_left ∷ c.lower_right ∷ [] };
}

impl CornerIndex {
    /// Of no game. It takes no memory.
    pub fn empty(alloc: Global) -> CornerIndex
        ensures { IsIndexOf [] result }
    {
        CornerIndex {
            upper_left: CornerGames::empty(alloc),
            upper_right: CornerGames::empty(alloc),
            lower_left: CornerGames::empty(alloc),
            lower_right: CornerGames::empty(alloc),
        }
    }

    /// Of a list of one game, with these numbers. The only error is `NoMemory`.
    pub fn of_game(alloc: Global, keys: &CornerKeys) -> Result<CornerIndex, NoMemory>
        ensures { IfOk result (λ index. IsIndexOf (keys.now ∷ []) index) }
    {
        Ok(CornerIndex {
            upper_left: CornerGames::of(alloc, keys.of_corner(0))?,
            upper_right: CornerGames::of(alloc, keys.of_corner(1))?,
            lower_left: CornerGames::of(alloc, keys.of_corner(2))?,
            lower_right: CornerGames::of(alloc, keys.of_corner(3))?,
        })
    }

    /// Of a list of games with these numbers, at most 400,000. The only error is `NoMemory`.
    pub fn of(alloc: Global, games: &[CornerKeys]) -> Result<CornerIndex, NoMemory>
        requires { length games.now ≤ 400000 }
        ensures { IfOk result (λ index. IsIndexOf games.now index) }
    {
        let [game, ..] = games else {
            return Ok(CornerIndex::empty(alloc));
        };
        if games.len() == 1 {
            return CornerIndex::of_game(alloc, game);
        }
        let (before, behind) = games.split_at(games.len() / 2);
        let a = CornerIndex::of(alloc, before)?;
        let b = CornerIndex::of(alloc, behind)?;
        CornerIndex::join(alloc, &a, &b, before.len() as u32)
    }

    /// The games of the first list, then those of the second: `first` is the length of the first
    /// list, and both together have at most 400,000 games. The time is linear in the entries. The
    /// only error is `NoMemory`.
    pub fn join(
        alloc: Global,
        a: &CornerIndex,
        b: &CornerIndex,
        first: u32,
    ) -> Result<CornerIndex, NoMemory>
        requires before { HaveGamesBelow a.now first }
        requires fits { HaveGamesBelow b.now (400000 - first) }
        ensures joined { IfOk result (IsIndexOfBoth a.now b.now first) }
        ensures index { IfOk result (λ joined. (one other : List (List (List ℕ))) →
            IsIndexOf one a.now → length one ≡ first → IsIndexOf other b.now →
            IsIndexOf (one ++ other) joined) }
    {
        Ok(CornerIndex {
            upper_left: CornerGames::join(alloc, &a.upper_left, &b.upper_left, first)?,
            upper_right: CornerGames::join(alloc, &a.upper_right, &b.upper_right, first)?,
            lower_left: CornerGames::join(alloc, &a.lower_left, &b.lower_left, first)?,
            lower_right: CornerGames::join(alloc, &a.lower_right, &b.lower_right, first)?,
        })
    }

    /// The places of the games that had the number in the corner, ascending. Nothing is allocated.
    pub fn games_with(&self, corner: u8, key: u64) -> &[u32]
        requires { corner < 4 }
        ensures exact { (g : ℕ) → Contains result.now g
            ↔ Contains (entries_in self.now corner) (entry key g) }
        ensures ascending { IsStrictlyIncreasing result.now }
    {
        self.of_corner(corner).games_with(key)
    }

    // The games of a corner.
    fn of_corner(&self, corner: u8) -> &CornerGames
        requires { corner < 4 }
        ensures { result.now ≡ entries_in self.now corner }
    {
        match corner {
            0 => &self.upper_left,
            1 => &self.upper_right,
            2 => &self.lower_left,
            _ => &self.lower_right,
        }
    }
}
