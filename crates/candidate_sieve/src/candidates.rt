// The games of a block that may have a placement.
ghost use Rattle.std.specs.Prelude.{
  ◌≡◌,
  ◌+◌,
  ◌<◌,
  ◌≤◌,
  ◌↔◌,
  ◌⊎◌,
  ℕ,
  IfSome,
  IsTrue,
  OnErr,
  OnOk,
  length,
  slice_index,
};
ghost use Rattle.std.specs.Int.{bit_at};
ghost use mathlib.Core.List.{IsPrefix};
ghost use Rattle.kb_geometry.specs.Board.{point_count};
ghost use Rattle.pattern_images.specs.Holds.{Allows};
ghost use Rattle.final_index.specs.Planes.{HadThere};
ghost use Rattle.candidate_sieve.specs.BlockGames.{
  AreAddedFor,
  AreRowsAdded,
  AreWordsOfSpan,
  HadWanted,
  HaveEach,
  IsAddedFor,
  IsSieve,
  IsSieved,
  IsSpanOf,
};
ghost use Rattle.candidate_sieve.specs.Candidates.{AreCandidatesAdded};
ghost use Rattle.candidate_sieve.specs.Ordered.{ArePairsBelow};

use crate::order::SpanOrder;
use crate::spans::{Span, span_from, span_sieve};
use final_index::{OrderPlanes, Planes};
use kb_geometry::{Cell, NoMemory};
use pattern_images::PatternCell;
use ready_images::{ReadyImages, Row, Want};

/// A placement that some games of a block may have.
#[derive(Clone, Copy, Debug, PartialEq, Eq)]
pub struct Candidate {
    /// The number of the placement among those of the images.
    pub placement: u32,
    /// The number of its upper left point.
    pub base: u16,
    /// The number of its class.
    pub class: u8,
    /// A bit for each game of the block that may have it.
    pub games: u64,
}

/// What is kept of the games of a block on boards of one shape, by which placements are sieved.
#[derive(Clone, Copy, Debug)]
pub struct BlockPlanes<'a> {
    /// Which cells each point had.
    pub planes: &'a Planes,
    /// Where stones stood beside empty points, if the block has it.
    pub order: Option<&'a OrderPlanes>,
}

// Placements of a class, to be sieved in the games of a block: the first stands behind the base, each
// of the others behind the next point. In the games `ever_empty` each point was empty at some node.
#[derive(Clone, Copy, Debug)]
pub(crate) struct SpanSieve<'a> {
    pub(crate) planes: &'a Planes,
    pub(crate) ever_empty: u64,
    // The number of a point.
    pub(crate) base: u16,
    // How many placements.
    pub(crate) count: usize,
    // What they ask of points.
    pub(crate) wants: &'a [Want],
}

/// Adds, for each placement that some of these games of the block may have, those that may have it:
/// the games on boards of the shape of which each cell of the placement but wildcards was allowed at
/// some node, and of which no stone beside a cell that must be empty is known to have stood at no node
/// at which the point under that cell was empty. `games` has a bit for each game of the block, by its
/// number. The candidates come class by class. `room` is written over. The only error is `NoMemory`.
/// After it the list begins with what was in it before.
pub fn add_candidates(
    block: &BlockPlanes,
    ready: &ReadyImages,
    games: u64,
    room: &mut Vec<u64>,
    found: &mut Vec<Candidate>,
) -> Result<(), NoMemory>
    requires shape { ready.now.images.shape ≡ block.now.planes.now.shape }
    requires order { IfSome block.now.order (λ o. o.now.shape ≡ ready.now.images.shape) }
    ensures ok { OnOk result (AreCandidatesAdded block.now.planes.now block.now.order
        ready.now.images games found.old.items found.new.items) }
    ensures refused { OnErr result (IsPrefix found.old.items found.new.items) }
{
    let planes = block.planes;
    let among = games & planes.present();
    let ever_empty = planes.ever_empty();
    let rows = ready.rows();
    let mut next = 0;
    while next < rows.len() {
        let span = span_from(rows, next);
        let sieve = span_sieve(planes, ever_empty, ready, span);
        let order = SpanOrder {
            order: block.order,
            base: sieve.base,
            pairs: ready.pairs_of(&rows[span.end - 1]),
        };
        sieve_span(&sieve, &order, among, room)?;
        add_rows(ready, span, room, found)?;
        next = span.end;
    }
    Ok(())
}

// Fills the room with a word for each of some placements: those of the games `among` that may have it.
// Of one placement alone the word is made by itself.
fn sieve_span(
    sieve: &SpanSieve,
    order: &SpanOrder,
    among: u64,
    room: &mut Vec<u64>,
) -> Result<(), NoMemory>
    requires sieve { IsSieve sieve.now }
    requires base { order.now.base ≡ sieve.now.base }
    requires on_board { IfSome order.now.order (λ o. ArePairsBelow (point_count o.now.shape)
        order.now.base order.now.pairs.now sieve.now.count) }
    ensures count { OnOk result (length room.new.items ≡ sieve.now.count) }
    ensures games { OnOk result ((k : ℕ) → k < sieve.now.count →
        IsSieved sieve.now.planes.now.games sieve.now.wants.now among order.now
        (sieve.now.base + k) (slice_index room.new.items k)) }
{
    if sieve.count == 1 {
        let games = order.games_at(sieve.games_at(among));
        room.clear();
        room.push(games)?;
        return Ok(());
    }
    sieve.fill_room(among, room)?;
    order.keep(room);
    Ok(())
}

// Adds a candidate for each placement of the rows that some game may have. There is a word for each
// point from the base of the first row to that of the last placement of the last row.
fn add_rows(
    ready: &ReadyImages,
    span: Span,
    words: &[u64],
    found: &mut Vec<Candidate>,
) -> Result<(), NoMemory>
    requires span { IsSpanOf ready.now.rows span.first span.end }
    requires words { AreWordsOfSpan ready.now.rows span.first span.end (length words.now) }
    ensures ok { OnOk result (AreRowsAdded ready.now.rows ready.now.numbers words.now span.first
        found.old.items span.end found.new.items) }
    ensures refused { OnErr result (IsPrefix found.old.items found.new.items) }
{
    let rows = ready.rows();
    let base = rows[span.first].base;
    for r in span.first..span.end {
        let row = &rows[r];
        let from = usize::from(row.base - base);
        add_row(
            row,
            ready.numbers_of(row),
            &words[from..from + row.count],
            found,
        )?;
    }
    Ok(())
}

impl<'a> SpanSieve<'a> {
    // Those of the games `among` that had, for each want, a cell that it allows on its point behind
    // the base.
    fn games_at(&self, among: u64) -> u64
        requires sieve { IsSieve self.now }
        requires some { 0 < self.now.count }
        ensures { HaveEach self.now.planes.now.games self.now.base self.now.wants.now among
            (length self.now.wants.now) result }
    {
        let mut games = among;
        for k in 0..self.wants.len() {
            let want = self.wants[k];
            if is_settled(want, self.ever_empty, games) {
                return games;
            }
            games = games_with(self.planes, want, self.base + want.offset, games);
        }
        games
    }

    // Fills the room with a word for each placement: those of the games `among` that may
    // have it. The word of one placement alone is made by itself.
    pub(crate) fn fill_room(&self, among: u64, room: &mut Vec<u64>) -> Result<(), NoMemory>
        requires { IsSieve self.now }
        ensures count { OnOk result (length room.new.items ≡ self.now.count) }
        ensures games { OnOk result ((k : ℕ) → k < self.now.count →
            HaveEach self.now.planes.now.games (self.now.base + k) self.now.wants.now among
            (length self.now.wants.now) (slice_index room.new.items k)) }
    {
        room.clear();
        if self.count == 1 {
            room.push(self.games_at(among))?;
            return Ok(());
        }
        room.resize(self.count, among)?;
        self.keep_wanted(room);
        Ok(())
    }

    // Keeps in each word the games that had, for each want, a cell that it allows on its point, which
    // stands behind the base for the first word, behind the next point for the next, and so on. In
    // most games each point was empty at some node, and then wants that allow an empty point ask
    // nothing. The others stand first.
    fn keep_wanted(&self, words: &mut [u64])
        requires sieve { IsSieve self.now }
        requires count { length words.old ≡ self.now.count }
        ensures count { length words.new ≡ length words.old }
        ensures kept { (k : ℕ) → k < length words.old →
            HaveEach self.now.planes.now.games (self.now.base + k) self.now.wants.now
            (slice_index words.old k) (length self.now.wants.now) (slice_index words.new k) }
    {
        for k in 0..self.wants.len() {
            let want = self.wants[k];
            if are_settled(want, self.ever_empty, words) {
                return;
            }
            keep_want(self.planes, want, self.base + want.offset, words);
        }
    }
}

// Whether a want and those behind it ask nothing of the games of a word: there are none, or in each
// every point was empty at some node and the want allows an empty point, as then the others do too.
fn is_settled(want: Want, ever_empty: u64, games: u64) -> bool
    ensures { IsTrue result → (g : ℕ) → bit_at games g ≡ 1 →
        (bit_at ever_empty g ≡ 1) × Allows want.cell Cell.Empty }
{
    if want.cell.allows(Cell::Empty) {
        return are_among(games, ever_empty);
    }
    games == 0
}

// Those of the games that had a cell which the want allows on the point, as `keep_want` keeps them in
// many words. A wildcard asks nothing.
fn games_with(planes: &Planes, want: Want, point: u16, games: u64) -> u64
    requires { point < point_count planes.now.shape }
    ensures { (g : ℕ) → g < 64 → (bit_at result g ≡ 1) ↔ ((bit_at games g ≡ 1)
        × HadWanted planes.now.games g want point) }
{
    match want.cell {
        PatternCell::Any => games,
        PatternCell::NotWhite => games_with_either(planes, Cell::Empty, Cell::Black, point, games),
        PatternCell::NotBlack => games_with_either(planes, Cell::Empty, Cell::White, point, games),
        PatternCell::Empty => games_with_cell(planes, Cell::Empty, point, games),
        PatternCell::Black => games_with_cell(planes, Cell::Black, point, games),
        PatternCell::White => games_with_cell(planes, Cell::White, point, games),
    }
}

// Whether a word has no games but these.
fn are_among(word: u64, games: u64) -> bool
    ensures { IsTrue result → (g : ℕ) → bit_at word g ≡ 1 → bit_at games g ≡ 1 }
{
    word & games == word
}

// Those of the games that had the cell on the point.
fn games_with_cell(planes: &Planes, cell: Cell, point: u16, games: u64) -> u64
    requires { point < point_count planes.now.shape }
    ensures { (g : ℕ) → g < 64 → (bit_at result g ≡ 1) ↔ ((bit_at games g ≡ 1)
        × HadThere planes.now.games g cell point) }
{
    games & planes.word(point, cell)
}

// Those of the games that had one cell or the other on the point.
fn games_with_either(planes: &Planes, one: Cell, other: Cell, point: u16, games: u64) -> u64
    requires { point < point_count planes.now.shape }
    ensures { (g : ℕ) → g < 64 → (bit_at result g ≡ 1) ↔ ((bit_at games g ≡ 1)
        × (HadThere planes.now.games g one point ⊎ HadThere planes.now.games g other point)) }
{
    games & (planes.word(point, one) | planes.word(point, other))
}

// Whether a want and those behind it ask nothing of the games of some words. Mostly the first word
// alone tells that they ask something.
fn are_settled(want: Want, ever_empty: u64, words: &[u64]) -> bool
    ensures { IsTrue result → (k g : ℕ) → k < length words.now →
        bit_at (slice_index words.now k) g ≡ 1 →
        (bit_at ever_empty g ≡ 1) × Allows want.cell Cell.Empty }
{
    if words.len() > 0 && !is_settled(want, ever_empty, words[0]) {
        return false;
    }
    is_settled(want, ever_empty, joined(words))
}

// All games that are in some of the words. Each word is looked at, so the loop has no branch.
pub(crate) fn joined(words: &[u64]) -> u64
    ensures { (k g : ℕ) → k < length words.now →
        bit_at (slice_index words.now k) g ≡ 1 → bit_at result g ≡ 1 }
{
    let mut games = 0;
    for k in 0..words.len() {
        games |= words[k];
    }
    games
}

// Keeps in each word the games that had a cell that the want allows on its point: the first word is
// that of the point `from`, and so on. A wildcard asks nothing.
fn keep_want(planes: &Planes, want: Want, from: u16, words: &mut [u64])
    requires { from + length words.old ≤ point_count planes.now.shape }
    ensures count { length words.new ≡ length words.old }
    ensures kept { (k g : ℕ) → k < length words.old → g < 64 →
        (bit_at (slice_index words.new k) g ≡ 1) ↔ ((bit_at (slice_index words.old k) g ≡ 1)
        × HadWanted planes.now.games g want (from + k)) }
{
    match want.cell {
        PatternCell::Any => {}
        PatternCell::NotWhite => planes.keep_either(Cell::Empty, Cell::Black, from, words),
        PatternCell::NotBlack => planes.keep_either(Cell::Empty, Cell::White, from, words),
        PatternCell::Empty => planes.keep(Cell::Empty, from, words),
        PatternCell::Black => planes.keep(Cell::Black, from, words),
        PatternCell::White => planes.keep(Cell::White, from, words),
    }
}

// Adds a candidate for each placement of a row that some game may have.
fn add_row(
    row: &Row,
    numbers: &[u32],
    words: &[u64],
    found: &mut Vec<Candidate>,
) -> Result<(), NoMemory>
    requires count { length words.now ≡ length numbers.now }
    requires small { row.now.base + length numbers.now ≤ 65536 }
    ensures ok { OnOk result (AreAddedFor row.now numbers.now words.now found.old.items
        (length numbers.now) found.new.items) }
    ensures refused { OnErr result (IsPrefix found.old.items found.new.items) }
{
    for k in 0..numbers.len() {
        add_games(row, k, numbers[k], words[k], found)?;
    }
    Ok(())
}

// Adds a candidate, the placement with this number in the row, unless no game is left.
fn add_games(
    row: &Row,
    k: usize,
    placement: u32,
    games: u64,
    found: &mut Vec<Candidate>,
) -> Result<(), NoMemory>
    requires { row.now.base + k < 65536 }
    ensures ok { OnOk result (IsAddedFor row.now k placement games found.old.items found.new.items) }
    ensures refused { OnErr result (found.new.items ≡ found.old.items) }
{
    if games == 0 {
        return Ok(());
    }
    found.push(Candidate {
        placement,
        base: row.base + k as u16,
        class: row.class,
        games,
    })?;
    Ok(())
}
