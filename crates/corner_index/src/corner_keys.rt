// The numbers that the corners had in a game, ascending.
ghost use Rattle.std.specs.Prelude.{◌≡◌, ◌<◌, ◌↔◌, ℕ, Contains, IfOk, IsTrue, length};
ghost use Rattle.std.specs.List.Sorted.{IsStrictlyIncreasing};
ghost use Rattle.node_paths.specs.StoredNodes.{part_start};
ghost use Rattle.corner_index.specs.Corners.{AreNumbersOfGame, keys_of};
ghost use Rattle.corner_index.specs.Keys.{end_of};

use crate::numbers::{numbers_at_nodes, numbers_of};
use capture_board::NodeDeltas;
use kb_geometry::NoMemory;
use std::alloc::Global;
use std::marker::Model;

// How many corners a board has.
const CORNERS: u8 = 4;

/// For each corner of a board the numbers that it had at the nodes of a game. Corner 0 is the upper
/// left one, 1 the upper right one, 2 the lower left one and 3 the lower right one.
///
/// A corner has six columns and six rows, and on a board with a side below 6 there are no numbers.
/// It is seen in the frame in which it is the upper left one. Its number has one digit to the base
/// 3 for each point: the point in column i and row j adds 3 to the power of 6 * j + i where it is
/// black, twice as much where it is white, and nothing where it is empty.
// The numbers of all corners stand in one list. Those of a corner end where `ends` tells, and begin
// where those of the corner before it end.
#[derive(Debug, Drop)]
pub struct CornerKeys {
    keys: Vec<u64>,
    ends: [u32; 4],
}

impl Model for CornerKeys {
    ghost use Rattle.std.specs.Prelude.{ℕ, List};
    ghost use Rattle.corner_index.specs.Keys.{ArePartsTo, shown_keys};

    ghost Value = { List (List ℕ) };

    ghost view = { λ c. shown_keys c.ends c.keys.items };

    ghost invariant = { λ c. ArePartsTo 4 c.ends c.keys.items };
}

impl CornerKeys {
    /// The numbers of a game with these changes. The only error is `NoMemory`.
    pub fn of(alloc: Global, deltas: &NodeDeltas) -> Result<CornerKeys, NoMemory>
        ensures { IfOk result (AreNumbersOfGame deltas.now) }
    {
        let nodes = numbers_at_nodes(alloc, deltas)?;
        let mut keys = Vec::new(alloc);
        let mut ends = [0u32; 4];
        for corner in 0..CORNERS {
            let numbers = numbers_of(alloc, deltas, nodes.as_slice(), corner)?;
            keys.extend_from_slice(&numbers)?;
            ends[usize::from(corner)] = keys.len() as u32;
        }
        keys.shrink_to_fit();
        Ok(CornerKeys { keys, ends })
    }

    /// Whether the corner had this number at some node.
    pub fn has(&self, corner: u8, key: u64) -> bool
        requires { corner < 4 }
        ensures { IsTrue result ↔ Contains (keys_of self.now corner) key }
    {
        let keys = self.of_corner(corner);
        keys.binary_search(&key).is_ok()
    }

    /// The numbers of a corner, ascending.
    pub fn of_corner(&self, corner: u8) -> &[u64]
        requires { corner < 4 }
        ensures value { result.now ≡ keys_of self.now corner }
        ensures ascending { IsStrictlyIncreasing result.now }
    {
        let at = usize::from(corner);
        let start = start_of(&self.ends, at);
        let end = self.ends[at];
        &self.keys[start as usize..end as usize]
    }
}

// Where the numbers of a corner begin: where those of the corner before it end.
fn start_of(ends: &[u32], corner: usize) -> u32
    requires { corner < length ends.now }
    ensures { result ≡ part_start (end_of ends.now) corner }
{
    if corner == 0 { 0 } else { ends[corner - 1] }
}
