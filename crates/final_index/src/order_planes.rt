// The order of stones in several games, as words with a bit for each game.
ghost use Rattle.std.specs.Prelude.{
  ◌≡◌,
  ℕ,
  ◌+◌,
  ◌-◌,
  ◌*◌,
  ◌<◌,
  ◌≤◌,
  IfOk,
  IfSome,
  OnErr,
  OnOk,
  length,
  slice_index,
};
ghost use Rattle.std.specs.Int.{bit_at};
ghost use Rattle.kb_geometry.specs.Board.{point_count};
ghost use Rattle.final_index.specs.Order.{
  AreJoined,
  HasGameMore,
  IsBeside,
  MayHaveStood,
  side_start,
};
ghost use Rattle.final_index.specs.OrderWords.{IsAhead, IsBehindOf, IsGivenAt, IsOrdered};
ghost use Rattle.final_index.specs.PlaneWords.{HaveGained};

use crate::planes::{cut, joined_words};
use crate::spans::Spans;
use capture_board::NodeDeltas;
use kb_geometry::{NoMemory, Shape};
use std::alloc::Global;
use std::marker::Model;

/// In which games of a block that are on boards of one shape a point had a stone while its neighbour
/// in line was empty: for each point and each of its four neighbours a word with a bit for each game,
/// at most 64. A game on a board of another shape has its place too.
///
/// Where a game has no bit, the point had a stone at no node at which the neighbour was empty. It may
/// have the bit without that.
#[derive(Debug, Drop)]
pub struct OrderPlanes {
    shape: Shape,
    // How many games there are.
    count: usize,
    // A word for each point: those for its neighbour to the right, those for the one to the left, then
    // below, then above.
    words: Vec<u64>,
}

// On which side of a stone a neighbour lies.
#[derive(Clone, Copy, Debug, PartialEq, Eq)]
enum Side {
    Right,
    Left,
    Below,
    Above,
}

impl Model for OrderPlanes {
    ghost use Rattle.kb_geometry.specs.Board.{point_count};
    ghost use Rattle.final_index.specs.Order.{OrderGames};
    ghost use Rattle.final_index.specs.OrderWords.{AreOrderWords};

    ghost Value = { OrderGames };

    ghost view = { λ o. record { shape = o.shape; count = o.count; words = o.words.items } };

    ghost invariant = { λ o. AreOrderWords (point_count o.shape) o.count o.words.items };
}

impl OrderPlanes {
    /// No game yet.
    pub fn new(alloc: Global, shape: Shape) -> Result<OrderPlanes, NoMemory>
        ensures shape { IfOk result (λ order. order.shape ≡ shape) }
        ensures count { IfOk result (λ order. order.count ≡ 0) }
    {
        let words = vec![in alloc; 0; 4 * usize::from(shape.count())]?;
        Ok(OrderPlanes {
            shape,
            count: 0,
            words,
        })
    }

    /// The shape of the boards.
    pub fn shape(&self) -> Shape
        ensures { result ≡ self.now.shape }
    {
        self.shape
    }

    /// How many games there are, those on boards of other shapes too.
    pub fn len(&self) -> usize
        ensures value { result ≡ self.now.count }
        ensures most { result ≤ 64 }
    {
        self.count
    }

    /// One game more, by its changes. The only error is `NoMemory`, after which all is as before.
    pub fn push(&mut self, alloc: Global, deltas: &NodeDeltas) -> Result<(), NoMemory>
        requires few { self.old.count < 64 }
        requires shape { deltas.now.shape ≡ self.old.shape }
        ensures ok { OnOk result (HasGameMore deltas.now self.old self.new) }
        ensures refused { OnErr result (self.new ≡ self.old) }
    {
        let spans = Spans::of(alloc, deltas)?;
        note_game(&mut self.words, self.shape, &spans, self.count);
        self.count += 1;
        Ok(())
    }

    /// One game more on a board of another shape.
    pub fn push_other(&mut self)
        requires { self.old.count < 64 }
        ensures { self.new ≡ record self.old { count = self.old.count + 1 } }
    {
        self.count += 1;
    }

    /// The games that may have had a stone on the one point while the other was empty: a bit for each,
    /// by its number. Where the points aren't neighbours in line these are all games.
    pub fn word(&self, stone: u16, empty: u16) -> u64
        requires { stone < point_count self.now.shape }
        ensures { (g : ℕ) → g < 64 → MayHaveStood self.now g stone empty → bit_at result g ≡ 1 }
    {
        match side_of(self.shape, stone, empty) {
            Some(side) => self.words[side_start(self.shape.count(), side) + usize::from(stone)],
            None => u64::MAX,
        }
    }

    /// Keeps of each word the games that may have had a stone on a point while another was empty: the
    /// first word is that of the points `stone` and `empty`, the next that of the points behind them,
    /// and so on. Where these aren't neighbours in line all games are kept.
    pub fn keep(&self, stone: u16, empty: u16, words: &mut [u64])
        requires { stone + length words.old ≤ point_count self.now.shape }
        ensures count { length words.new ≡ length words.old }
        ensures part { (k g : ℕ) → k < length words.old →
            bit_at (slice_index words.new k) g ≡ 1 → bit_at (slice_index words.old k) g ≡ 1 }
        ensures kept { (k g : ℕ) → k < length words.old → bit_at (slice_index words.old k) g ≡ 1 →
            MayHaveStood self.now g (stone + k) (empty + k) →
            bit_at (slice_index words.new k) g ≡ 1 }
    {
        let Some(side) = side_of(self.shape, stone, empty) else {
            return;
        };
        let first = side_start(self.shape.count(), side) + usize::from(stone);
        cut(words, self.words.as_slice(), first);
    }

    /// The games of the first, then those of the second: together at most 64, on boards of one shape.
    pub fn join(alloc: Global, a: &OrderPlanes, b: &OrderPlanes) -> Result<OrderPlanes, NoMemory>
        requires same { a.now.shape ≡ b.now.shape }
        requires few { a.now.count + b.now.count ≤ 64 }
        ensures { IfOk result (AreJoined a.now b.now) }
    {
        let words = joined_words(alloc, a.words.as_slice(), b.words.as_slice(), a.count)?;
        Ok(OrderPlanes {
            shape: a.shape,
            count: a.count + b.count,
            words,
        })
    }
}

// The side of a point on which another lies, if they are neighbours in line. A point that is the first
// of its row counts as the right neighbour of the one before it.
fn side_of(shape: Shape, stone: u16, empty: u16) -> Option<Side>
    ensures { IfSome result (λ s. IsBeside shape s stone empty) }
{
    let cols = u16::from(shape.cols());
    if stone < empty {
        return match empty - stone {
            1 => Some(Side::Right),
            step if step == cols => Some(Side::Below),
            _ => None,
        };
    }
    match stone - empty {
        1 => Some(Side::Left),
        step if step == cols => Some(Side::Above),
        _ => None,
    }
}

// Where the words of a side begin, for a board with so many points.
fn side_start(points: u16, side: Side) -> usize
    ensures value { result ≡ side_start points side }
    ensures room { result + points ≤ 4 * points }
{
    let points = usize::from(points);
    match side {
        Side::Right => 0,
        Side::Left => points,
        Side::Below => 2 * points,
        Side::Above => 3 * points,
    }
}

// Gives a game its bit in the words of all points, by its numbers.
fn note_game(words: &mut [u64], shape: Shape, spans: &Spans, game: usize)
    requires few { game < 64 }
    requires room { length words.old ≡ 4 * point_count shape }
    requires from { length spans.now.stone_from.items ≡ point_count shape }
    requires below { length spans.now.empty_below.items ≡ point_count shape }
    ensures { HaveGained (IsOrdered shape spans.now) game words.old words.new }
{
    let points = shape.count();
    let cols = usize::from(shape.cols());
    note_ahead(words, spans, side_start(points, Side::Right), 1, game);
    note_behind(words, spans, side_start(points, Side::Left), 1, game);
    note_ahead(words, spans, side_start(points, Side::Below), cols, game);
    note_behind(words, spans, side_start(points, Side::Above), cols, game);
}

// Gives a game its bit in the words from a place on: in that of a point, where the point may have had a
// stone while the one so many further was empty.
fn note_ahead(words: &mut [u64], spans: &Spans, start: usize, step: usize, game: usize)
    requires few { game < 64 }
    requires step { step ≤ length spans.now.stone_from.items }
    requires below { length spans.now.empty_below.items ≡ length spans.now.stone_from.items }
    requires room { start + length spans.now.stone_from.items ≤ length words.old }
    ensures { HaveGained
        (IsAhead spans.now start step (length spans.now.stone_from.items - step))
        game words.old words.new }
{
    let from = spans.stone_from.as_slice();
    let below = spans.empty_below.as_slice();
    for p in 0..from.len() - step {
        note_if(words, start + p, from[p] < below[p + step], game);
    }
}

// Gives a game its bit in the words from a place on: in that of a point, where the point may have had a
// stone while the one so many before it was empty.
fn note_behind(words: &mut [u64], spans: &Spans, start: usize, step: usize, game: usize)
    requires few { game < 64 }
    requires step { step ≤ length spans.now.stone_from.items }
    requires below { length spans.now.empty_below.items ≡ length spans.now.stone_from.items }
    requires room { start + length spans.now.stone_from.items ≤ length words.old }
    ensures { HaveGained
        (IsBehindOf spans.now start step (length spans.now.stone_from.items - step))
        game words.old words.new }
{
    let from = spans.stone_from.as_slice();
    let below = spans.empty_below.as_slice();
    for p in 0..from.len() - step {
        note_if(words, start + (p + step), from[p + step] < below[p], game);
    }
}

// Gives a game its bit in a word, if it is to have it. Without a branch, so that many words are made at
// once.
fn note_if(words: &mut [u64], at: usize, is: bool, game: usize)
    requires few { game < 64 }
    requires within { at < length words.old }
    ensures { HaveGained (IsGivenAt at is) game words.old words.new }
{
    words[at] |= u64::from(is) << game;
}
