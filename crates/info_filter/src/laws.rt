// Laws of the definitions for days and players, for who reads a contract of this crate.
ghost use Rattle.std.specs.Prelude.{◌≡◌, ◌*◌, ◌≤◌, ℕ, ℤ, List, All, Option, length};
ghost use Rattle.game_tree.specs.Information.{Information};
ghost use Rattle.info_filter.specs.Day.{IsDayOf};
ghost use Rattle.info_filter.specs.Players.{IsPlayersTable, TableRow};

/// The text of a date has one day or none, and no two: that of [`day_of`](crate::day_of).
pub fn a_text_has_one_day_or_none()
    ensures some { (text : List ℕ) → (day : Option ℤ) × IsDayOf text day }
    ensures one { (text : List ℕ) (a b : Option ℤ) → IsDayOf text a → IsDayOf text b → a ≡ b }
{}

/// A list of games has a table of players, and one only: that of [`Players`](crate::Players), to
/// which the games were added in order.
pub fn a_list_of_games_has_one_table()
    ensures some { (games : List Information) → (rows : List TableRow) × IsPlayersTable games rows }
    ensures one { (games : List Information) (a b : List TableRow) →
        IsPlayersTable games a → IsPlayersTable games b → a ≡ b }
{}

/// A row counts at most two sides for each game. So games below 2,000,000,000 can be added to a
/// table.
pub fn a_row_counts_at_most_two_sides_of_a_game()
    ensures { (games : List Information) (rows : List TableRow) → IsPlayersTable games rows →
        All (λ (row : TableRow). row.games ≤ 2 * length games) rows }
{}
