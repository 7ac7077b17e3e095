// The table of players. indexmap keeps the names in the order of first sight.
ghost use Rattle.std.specs.Prelude.{◌≡◌, ◌++◌, ◌≤◌, List, [], ◌∷◌, All, OnErr, OnOk, length};
ghost use Rattle.game_tree.specs.Information.{Information};
ghost use Rattle.std.specs.Iterator.{YieldsFirstBy, item_count};
ghost use Rattle.info_filter.specs.Players.{IsPlayersTable, TableRow};
ghost use Rattle.info_filter.specs.SidesCounted.{AreRowsWithGame};

use crate::score::Score;
use crate::seat::{add_side, seat_of};
use game_tree::Info;
use indexmap::IndexMap;
use indexmap::map::Iter;
use kb_geometry::NoMemory;
use std::alloc::Global;
use std::marker::Model;

/// The table of the players of games: each name that isn't empty once, in the order of first sight,
/// with its three counts. Contracts see it as the list of its rows.
#[derive(Debug, Drop)]
pub struct Players {
    scores: IndexMap<Vec<u8>, Score>,
}

impl Model for Players {
    ghost use Rattle.std.specs.Prelude.{List};
    ghost use Rattle.info_filter.specs.Players.{TableRow};
    ghost use Rattle.info_filter.specs.Seats.{table_rows_of};

    ghost Value = { List TableRow };

    ghost view = { λ p. table_rows_of p.scores.entries };
}

impl Players {
    /// The table of no game.
    pub fn new(alloc: Global) -> Self
        ensures { result ≡ [] }
    {
        Players {
            scores: IndexMap::new(alloc),
        }
    }

    /// Adds a game: its player of the black stones, then that of the white ones. A name gets one
    /// game for each side that it plays, a win where that side won and a loss where the other side
    /// won. An empty name is skipped. No row may count more than 4,000,000,000 games before. The only
    /// error is `NoMemory`, and then nothing is added.
    pub fn add(&mut self, alloc: Global, info: &Info) -> Result<(), NoMemory>
        requires { All (λ (row : TableRow). row.games ≤ 4000000000) self.old }
        ensures rows { OnOk result (AreRowsWithGame self.old info.now self.new) }
        ensures ok { OnOk result ((games : List Information) →
            IsPlayersTable games self.old → IsPlayersTable (games ++ (info.now ∷ [])) self.new) }
        ensures err { OnErr result (self.new ≡ self.old) }
    {
        let black = seat_of(&self.scores, alloc, info.black())?;
        let white = seat_of(&self.scores, alloc, info.white())?;
        self.scores.reserve(2)?;
        let outcome = info.outcome();
        let (black_wins, white_wins) = (outcome.is_black_win(), outcome.is_white_win());
        add_side(&mut self.scores, black, black_wins, white_wins);
        add_side(&mut self.scores, white, white_wins, black_wins);
        Ok(())
    }

    /// How many rows there are.
    pub fn count(&self) -> usize
        ensures { result ≡ length self.now }
    {
        self.scores.len()
    }

    /// The rows, in the order in which their names were seen first.
    pub fn rows(&self) -> PlayerRows<'_>
        ensures { result ≡ self.now }
    {
        PlayerRows {
            scores: self.scores.iter(),
        }
    }
}

/// A row of the players' table: a name, how many sides of games are of it, and how many of these
/// won and lost.
#[derive(Clone, Copy, Debug, PartialEq, Eq, Hash)]
pub struct PlayerRow<'a> {
    pub name: &'a [u8],
    pub games: u32,
    pub wins: u32,
    pub losses: u32,
}

/// An iterator over the rows of a players' table. Contracts see it as the list of the rows that are
/// left.
#[derive(Debug, Drop)]
pub struct PlayerRows<'a> {
    scores: Iter<'a, Vec<u8>, Score>,
}

impl<'a> Model for PlayerRows<'a> {
    ghost use Rattle.std.specs.Prelude.{List};
    ghost use Rattle.info_filter.specs.Players.{TableRow};
    ghost use Rattle.info_filter.specs.Seats.{table_rows_of};

    ghost Value = { List TableRow };

    ghost view = { λ r. table_rows_of r.scores };
}

impl<'a> Iterator for PlayerRows<'a> {
    type Item = PlayerRow<'a>;

    ghost use Rattle.info_filter.specs.Rows.{shown_row};

    ghost next_gives = { YieldsFirstBy shown_row (λ rest. rest) };

    ghost remaining = { item_count (λ rest. rest) };

    fn next(&mut self) -> Option<PlayerRow<'a>> {
        let (name, score) = self.scores.next()?;
        Some(PlayerRow {
            name: name.as_slice(),
            games: score.games,
            wins: score.wins,
            losses: score.losses,
        })
    }
}
