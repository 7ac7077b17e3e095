// The sets of several games, as one word for each cell and point.
ghost use Rattle.std.specs.Prelude.{
  ◌≡◌,
  ℕ,
  ◌+◌,
  ◌*◌,
  ◌<◌,
  ◌≤◌,
  ◌↔◌,
  ◌⊎◌,
  ◌++◌,
  ◌∷◌,
  [],
  replicate,
  Contains,
  IfOk,
  IfSome,
  IsSome,
  Some,
  None,
  length,
  bit_and,
  bit_or,
  slice_index,
  slice_index_or,
};
ghost use Rattle.std.specs.Int.{bit_at};
ghost use Rattle.std.specs.Option.{option_map};
ghost use Rattle.kb_geometry.specs.declared.stone.Cell.{Cell};
ghost use Rattle.kb_geometry.specs.Board.{point_count};
ghost use Rattle.final_index.specs.Ever.{set_of};
ghost use Rattle.final_index.specs.Planes.{HadThere};
ghost use Rattle.final_index.specs.PlaneWords.{
  AreNoted,
  AreSetsNoted,
  HasBitsOfBoth,
  HaveBitsOfBoth,
  HaveGained,
  IsBehind,
  start_of,
};

use crate::ever_sets::EverSets;
use kb_bits::{BitBoard, members_ascend};
use kb_geometry::{Cell, NoMemory, Shape};
use std::alloc::Global;
use std::marker::Model;

/// The sets of the games of a block that are on boards of one shape: for each cell and point a word
/// with a bit for each game, at most 64. A game on a board of another shape has its place too, and
/// no bit.
///
/// So one `and` of words tells which of the games may have several cells.
#[derive(Debug, Drop)]
pub struct Planes {
    shape: Shape,
    // How many games there are.
    count: usize,
    // The bits of the games on boards of the shape.
    present: u64,
    // A word for each point where it was empty, then one for each where it was black, then white.
    words: Vec<u64>,
}

impl Model for Planes {
    ghost use Rattle.kb_geometry.specs.Board.{point_count};
    ghost use Rattle.final_index.specs.Planes.{PlaneGames};
    ghost use Rattle.final_index.specs.PlaneWords.{ArePlaneWords, games_of_words};

    ghost Value = { PlaneGames };

    ghost view = { λ p. record {
      shape = p.shape;
      games = games_of_words (point_count p.shape) p.present p.words.items p.count;
    } };

    ghost invariant = { λ p. ArePlaneWords (point_count p.shape) p.count p.present p.words.items };
}

impl Planes {
    /// No game yet.
    pub fn new(alloc: Global, shape: Shape) -> Result<Planes, NoMemory>
        ensures { IfOk result (λ planes. planes ≡ record { shape = shape; games = [] }) }
    {
        Planes::none(alloc, shape, 0)
    }

    /// So many games on boards of other shapes, at most 64.
    pub fn none(alloc: Global, shape: Shape, count: usize) -> Result<Planes, NoMemory>
        requires { count ≤ 64 }
        ensures { IfOk result (λ planes.
            planes ≡ record { shape = shape; games = replicate count None }) }
    {
        let words = vec![in alloc; 0; 3 * usize::from(shape.count())]?;
        Ok(Planes {
            shape,
            count,
            present: 0,
            words,
        })
    }

    /// The shape of the boards.
    pub fn shape(&self) -> Shape
        ensures { result ≡ self.now.shape }
    {
        self.shape
    }

    /// How many games there are, those on boards of other shapes too.
    pub fn len(&self) -> usize
        ensures value { result ≡ length self.now.games }
        ensures most { result ≤ 64 }
    {
        self.count
    }

    /// The games on boards of the shape: a bit for each, by its number.
    pub fn present(&self) -> u64
        ensures { (g : ℕ) → g < 64 →
            (bit_at result g ≡ 1) ↔ IsSome (slice_index_or self.now.games g None) }
    {
        self.present
    }

    /// The games on boards of the shape in which each point was empty at some node, the one at this
    /// node and the other at that: a bit for each, by its number. All games that begin with an empty
    /// board are among them.
    pub fn ever_empty(&self) -> u64
        ensures { (g : ℕ) → g < 64 → (bit_at result g ≡ 1)
            ↔ (IsSome (slice_index_or self.now.games g None)
            × ((p : ℕ) → p < point_count self.now.shape → HadThere self.now.games g Cell.Empty p)) }
    {
        common(self.present(), self.plane(Cell::Empty))
    }

    // The words of a cell, one for each point.
    fn plane(&self, cell: Cell) -> &[u64]
        ensures count { length result.now ≡ point_count self.now.shape }
        ensures words { (p g : ℕ) → p < point_count self.now.shape →
            (bit_at (slice_index result.now p) g ≡ 1) ↔ HadThere self.now.games g cell p }
    {
        let points = self.shape.count();
        let start = start_of(points, cell);
        &self.words[start..start + usize::from(points)]
    }

    /// One game more, by its sets. Without sets it is on a board of another shape.
    pub fn push(&mut self, ever: Option<&EverSets>)
        requires few { length self.old.games < 64 }
        requires on_board { IfSome ever (λ sets. (stone : Cell) (p : ℕ) →
            Contains (set_of sets.now stone) p → p < point_count self.old.shape) }
        ensures { self.new ≡ record {
          shape = self.old.shape;
          games = self.old.games ++ (option_map (λ sets. sets.now) ever.entry) ∷ [];
        } }
    {
        match ever {
            Some(sets) => self.add(sets),
            None => self.count += 1,
        }
    }

    // One game more.
    fn add(&mut self, sets: &EverSets)
        requires few { length self.old.games < 64 }
        requires on_board { (stone : Cell) (p : ℕ) →
            Contains (set_of sets.now stone) p → p < point_count self.old.shape }
        ensures { self.new ≡ record {
          shape = self.old.shape;
          games = self.old.games ++ (Some sets.now) ∷ [];
        } }
    {
        members_ascend(&sets.empty);
        members_ascend(&sets.black);
        members_ascend(&sets.white);
        let points = self.shape.count();
        note_sets(&mut self.words, points, sets, self.count);
        self.present |= 1 << self.count;
        self.count += 1;
    }

    /// The games that had the cell on the point at some node: a bit for each, by its number.
    pub fn word(&self, point: u16, cell: Cell) -> u64
        requires { point < point_count self.now.shape }
        ensures { (g : ℕ) → g < 64 →
            (bit_at result g ≡ 1) ↔ HadThere self.now.games g cell point }
    {
        self.plane(cell)[usize::from(point)]
    }

    /// Keeps of each word the games that had the cell at some node on its point: the first word is
    /// that of the point `from`, the next that of the point behind it, and so on.
    pub fn keep(&self, cell: Cell, from: u16, words: &mut [u64])
        requires { from + length words.old ≤ point_count self.now.shape }
        ensures count { length words.new ≡ length words.old }
        ensures kept { (k g : ℕ) → k < length words.old → g < 64 →
            (bit_at (slice_index words.new k) g ≡ 1) ↔ ((bit_at (slice_index words.old k) g ≡ 1)
            × HadThere self.now.games g cell (from + k)) }
    {
        cut(words, self.plane(cell), usize::from(from));
    }

    /// Keeps of each word the games that had one cell or the other at some node on its point: the
    /// first word is that of the point `from`, the next that of the point behind it, and so on.
    pub fn keep_either(&self, one: Cell, other: Cell, from: u16, words: &mut [u64])
        requires { from + length words.old ≤ point_count self.now.shape }
        ensures count { length words.new ≡ length words.old }
        ensures kept { (k g : ℕ) → k < length words.old → g < 64 →
            (bit_at (slice_index words.new k) g ≡ 1) ↔ ((bit_at (slice_index words.old k) g ≡ 1)
            × (HadThere self.now.games g one (from + k) ⊎ HadThere self.now.games g other (from + k))) }
    {
        cut_by_either(words, self.plane(one), self.plane(other), usize::from(from));
    }

    /// The games of the first, then those of the second: together at most 64, on boards of one
    /// shape.
    pub fn join(alloc: Global, a: &Planes, b: &Planes) -> Result<Planes, NoMemory>
        requires same { a.now.shape ≡ b.now.shape }
        requires few { length a.now.games + length b.now.games ≤ 64 }
        ensures { IfOk result (λ both. both ≡ record {
          shape = a.now.shape;
          games = a.now.games ++ b.now.games;
        }) }
    {
        let words = joined_words(alloc, a.words.as_slice(), b.words.as_slice(), a.count)?;
        Ok(Planes {
            shape: a.shape,
            count: a.count + b.count,
            present: joined(a.present, b.present, a.count),
            words,
        })
    }
}

// Where the words of a cell begin, for a board with so many points.
fn start_of(points: u16, cell: Cell) -> usize
    ensures value { result ≡ start_of points cell }
    ensures room { result + points ≤ 3 * points }
{
    match cell {
        Cell::Empty => 0,
        Cell::Black => usize::from(points),
        Cell::White => 2 * usize::from(points),
    }
}

// Gives a game its bit in the words of its sets.
fn note_sets(words: &mut [u64], points: u16, sets: &EverSets, game: usize)
    requires few { game < 64 }
    requires room { length words.old ≡ 3 * points }
    requires on_board { (stone : Cell) (p : ℕ) → Contains (set_of sets.now stone) p → p < points }
    ensures { AreSetsNoted points sets.now game words.old words.new }
{
    note(words, points, Cell::Empty, &sets.empty, game);
    note(words, points, Cell::Black, &sets.black, game);
    note(words, points, Cell::White, &sets.white, game);
}

// Gives a game its bit in the words of a cell and of the points of a set.
fn note(words: &mut [u64], points: u16, cell: Cell, members: &BitBoard, game: usize)
    requires few { game < 64 }
    requires room { length words.old ≡ 3 * points }
    requires on_board { (p : ℕ) → Contains members.now p → p < points }
    ensures { AreNoted points points cell members.now game words.old words.new }
{
    let start = start_of(points, cell);
    for part in 0..points / 64 + 1 {
        let from = 64 * part;
        let first = start + usize::from(from);
        note_window(words, first, members.window(from), game);
    }
}

// Gives a game its bit in some of the words from a place on: where a word here has a bit, in the one
// that stands so many behind that place.
fn note_window(words: &mut [u64], first: usize, bits: u64, game: usize)
    requires few { game < 64 }
    requires within { (k : ℕ) → k < 64 → bit_at bits k ≡ 1 → first + k < length words.old }
    ensures { HaveGained (IsBehind first bits 64) game words.old words.new }
{
    let mut from = 0;
    let mut rest = bits;
    while rest != 0 {
        let at = from + rest.trailing_zeros() as usize;
        words[first + at] |= 1 << game;
        from = at + 1;
        rest = bits >> at >> 1;
    }
}

// Cuts each word with a word of a plane: the first with the one at this place, the next with the one
// behind it, and so on.
pub(crate) fn cut(words: &mut [u64], plane: &[u64], from: usize)
    requires { from + length words.old ≤ length plane.now }
    ensures count { length words.new ≡ length words.old }
    ensures each { (k : ℕ) → k < length words.old → slice_index words.new k
        ≡ bit_and (slice_index words.old k) (slice_index plane.now (from + k)) }
{
    for k in 0..words.len() {
        words[k] &= plane[from + k];
    }
}

// Cuts each word with the joined words of two planes.
fn cut_by_either(words: &mut [u64], one: &[u64], other: &[u64], from: usize)
    requires one { from + length words.old ≤ length one.now }
    requires other { from + length words.old ≤ length other.now }
    ensures count { length words.new ≡ length words.old }
    ensures each { (k : ℕ) → k < length words.old → slice_index words.new k
        ≡ bit_and (slice_index words.old k)
        (bit_or (slice_index one.now (from + k)) (slice_index other.now (from + k))) }
{
    for k in 0..words.len() {
        words[k] &= one[from + k] | other[from + k];
    }
}

// The bits of a word that are in each word of a plane.
fn common(word: u64, plane: &[u64]) -> u64
    ensures { (g : ℕ) → (bit_at result g ≡ 1) ↔ ((bit_at word g ≡ 1)
        × ((p : ℕ) → p < length plane.now → bit_at (slice_index plane.now p) g ≡ 1)) }
{
    let mut common = word;
    for p in 0..plane.len() {
        common &= plane[p];
    }
    common
}

// The words of two lists joined, one by one.
pub(crate) fn joined_words(
    alloc: Global,
    a: &[u64],
    b: &[u64],
    by: usize,
) -> Result<Vec<u64>, NoMemory>
    requires same { length a.now ≡ length b.now }
    requires most { by ≤ 64 }
    requires room { (k i : ℕ) → bit_at (slice_index b.now k) i ≡ 1 → i + by < 64 }
    ensures words { IfOk result (λ both. HaveBitsOfBoth a.now b.now by both.items) }
    ensures count { IfOk result (λ both. length both.items ≡ length a.now) }
{
    let mut words = Vec::with_capacity(alloc, a.len())?;
    for k in 0..a.len() {
        words.push(joined(a[k], b[k], by))?;
    }
    Ok(words)
}

// The bits of one word, and so far behind them those of another.
fn joined(a: u64, b: u64, by: usize) -> u64
    requires most { by ≤ 64 }
    requires room { (i : ℕ) → bit_at b i ≡ 1 → i + by < 64 }
    ensures { HasBitsOfBoth a b by result }
{
    if by == 64 { a } else { a | b << by }
}
