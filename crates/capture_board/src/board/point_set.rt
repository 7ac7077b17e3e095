// A set of points in the order in which they came, in fixed room.
ghost use Rattle.std.specs.Prelude.{
  ◌≡◌,
  ℕ,
  ◌≤◌,
  ◌<◌,
  ◌↔◌,
  ◌⊎◌,
  [],
  List,
  length,
  take,
  slice_index,
  All,
  Contains,
  IsTrue,
};
ghost use Rattle.capture_board.specs.PointSet.{IsPointSet, IsWithPoint, IsUnmarked};

use super::ROOM;
use std::marker::Model;

/// Points by their numbers, each once, in the order in which they came.
#[derive(Drop)]
pub struct PointSet {
    points: [u16; ROOM],
    len: usize,
    has: [bool; ROOM],
}

impl Model for PointSet {
    ghost Value = { List ℕ };

    ghost view = { λ s. take s.len s.points };

    ghost invariant = { λ s. IsPointSet s.points s.len s.has };
}

impl PointSet {
    /// No points.
    pub fn new() -> Self
        ensures { result ≡ [] }
    {
        PointSet {
            points: [0; ROOM],
            len: 0,
            has: [false; ROOM],
        }
    }

    /// How many points.
    pub fn len(&self) -> usize
        ensures value { result ≡ length self.now }
        ensures most { result ≤ ROOM }
    {
        self.len
    }

    /// The point that came after this many others.
    pub fn at(&self, index: usize) -> u16
        requires { index < length self.now }
        ensures value { result ≡ slice_index self.now index }
        ensures in_range { result < ROOM }
    {
        let points = &self.points;
        points[index]
    }

    /// Whether the point is there.
    pub fn contains(&self, point: u16) -> bool
        requires { point < ROOM }
        ensures { IsTrue result ↔ Contains self.now point }
    {
        self.has[usize::from(point)]
    }

    /// Adds a point, if it is not there.
    pub fn insert(&mut self, point: u16)
        requires { point < ROOM }
        ensures { IsWithPoint self.old point self.new }
    {
        let index = usize::from(point);
        if !self.has[index] {
            self.has[index] = true;
            self.points[self.len] = point;
            self.len += 1;
        }
    }

    /// Adds the points of another set.
    pub fn insert_all(&mut self, others: &PointSet)
        ensures { (q : ℕ) → Contains self.new q ↔ (Contains self.old q ⊎ Contains others.now q) }
    {
        for index in 0..others.len() {
            self.insert(others.at(index));
        }
    }

    /// Removes all points, at the cost of their number.
    pub fn clear(&mut self)
        ensures { self.new ≡ [] }
    {
        unmark(&self.points[..self.len], &mut self.has);
        self.len = 0;
    }
}

// Removes the marks of these points.
fn unmark(points: &[u16], has: &mut [bool])
    requires { All (λ p. p < length has.old) points.now }
    ensures { IsUnmarked points.now has.old has.new }
{
    for point in points {
        has[usize::from(*point)] = false;
    }
}
