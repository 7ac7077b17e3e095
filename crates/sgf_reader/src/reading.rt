// What was read so far of a text.
ghost use Rattle.std.specs.Prelude.{
  ◌≡◌,
  ◌+◌,
  ◌<◌,
  ◌≤◌,
  ◌⊎◌,
  Some,
  [],
  ◌∷◌,
  ◌++◌,
  true,
  false,
  length,
  IfOk,
  Err,
};
ghost use Rattle.sgf_reader.specs.declared.fault.ReadError.TheVariants.{Fault};
ghost use Rattle.sgf_reader.specs.declared.fault.SgfFault.{SgfFault};
ghost use Rattle.sgf_reader.specs.declared.fault.FaultKind.TheVariants as kind;
ghost use Rattle.sgf_reader.specs.Limits.{most_games, most_nodes, most_open};
ghost use Rattle.sgf_reader.specs.Stays.{nothing};
ghost use Rattle.sgf_reader.specs.Reading.{
  with_raw_pair,
  with_raw_node,
  with_raw_bracket,
  closed_view,
  closed_place,
  IsPlaceOutside,
  IsEndFault,
};

use crate::flat::NodeStart;
use crate::limits::{MAX_GAMES, MAX_NODES, MAX_OPEN};
use crate::place::{Phase, Place};
use crate::{FaultKind, FlatCollection, Pair, ReadError, SgfFault};
use std::alloc::Global;
use std::marker::Model;

// The bytes of a node with a move.
const SHORT_NODE: usize = 6;

// The most nodes for which there is room before any is read.
const MOST_ROOM: usize = 1024;

// The values and the nodes of all games so far, and where the games end that have ended; of the game
// that has not, its first node and its open brackets.
#[derive(Drop)]
pub(crate) struct Reading {
    pairs: Vec<Pair>,
    nodes: Vec<NodeStart>,
    ends: Vec<usize>,
    first: usize,
    is_reading: bool,
    parents: Vec<Option<u32>>,
    last: Option<u32>,
}

impl Model for Reading {
    ghost use Rattle.std.specs.Prelude.{reverse, drop};
    ghost use Rattle.sgf_reader.specs.Flat.{shown_games, shown_nodes};
    ghost use Rattle.sgf_reader.specs.Reading.{View, IsFlatSoFar};

    ghost Value = { View };

    ghost view = { λ r. record {
      games = shown_games r.ends.items (shown_nodes r.nodes.items r.pairs.items);
      nodes = drop r.first (shown_nodes r.nodes.items r.pairs.items);
      is_reading = r.is_reading;
      parents = reverse r.parents.items;
      last = r.last;
    } };

    ghost invariant = { λ r. IsFlatSoFar r.pairs.items r.nodes.items r.ends.items r.first
        r.is_reading };
}

// This fault at this offset.
pub(crate) fn fault(kind: FaultKind, at: u32) -> ReadError
    ensures { result ≡ Fault (record { kind = kind; at = at }) }
{
    ReadError::Fault(SgfFault { kind, at })
}

impl Reading {
    // How many games have ended.
    pub(crate) fn game_count(&self) -> usize
        ensures { result ≡ length self.now.games }
    {
        self.ends.len()
    }

    // Nothing so far.
    pub(crate) fn new(alloc: Global) -> Self
        ensures { result ≡ record {
          games = [];
          nodes = [];
          is_reading = false;
          parents = [];
          last = None;
        } }
    {
        Reading {
            pairs: Vec::new(alloc),
            nodes: Vec::new(alloc),
            ends: Vec::new(alloc),
            first: 0,
            is_reading: false,
            parents: Vec::new(alloc),
            last: None,
        }
    }

    // Nothing so far, of a text with so many bytes. There is room for as many nodes, and values, as a
    // text of short nodes has.
    pub(crate) fn for_text(alloc: Global, bytes: usize) -> Result<Self, ReadError>
        ensures ok { IfOk result (λ reading. reading ≡ nothing) }
        ensures fault { (f : SgfFault) → result ≡ Err (Fault f) → ⊥ }
    {
        let room = (bytes / SHORT_NODE).min(MOST_ROOM);
        let mut reading = Reading::new(alloc);
        reading.pairs.reserve(room)?;
        reading.nodes.reserve(room)?;
        Ok(reading)
    }

    // One value more of the node that is being read.
    pub(crate) fn add_value(&mut self, pair: Pair) -> Result<(), ReadError>
        ensures ok { self.old.is_reading ≡ true → IfOk result (λ _.
            self.new ≡ record self.old { nodes = with_raw_pair self.old.nodes pair }) }
        ensures fault { (f : SgfFault) → result ≡ Err (Fault f) → ⊥ }
    {
        self.pairs.push(pair)?;
        Ok(())
    }

    // A node begins at this offset.
    pub(crate) fn begin_node(&mut self, at: u32) -> Result<(), ReadError>
        ensures ok { IfOk result (λ _.
            (self.new ≡ with_raw_node self.old) × (length self.old.nodes < most_nodes)) }
        ensures fault { (f : SgfFault) → result ≡ Err (Fault f) →
            (f ≡ record { kind = kind.TooManyNodes; at = at })
            × (most_nodes ≤ length self.old.nodes) }
    {
        let number = self.nodes.len() - self.first;
        if number >= MAX_NODES as usize {
            return Err(fault(FaultKind::TooManyNodes, at));
        }
        self.nodes.push(NodeStart {
            parent: self.last,
            values_from: self.pairs.len(),
        })?;
        self.last = Some(number as u32);
        self.is_reading = true;
        Ok(())
    }

    // A bracket is opened at this offset.
    pub(crate) fn open_bracket(&mut self, at: u32) -> Result<(), ReadError>
        ensures ok { IfOk result (λ _.
            (self.new ≡ with_raw_bracket self.old) × (length self.old.parents < most_open)) }
        ensures fault { (f : SgfFault) → result ≡ Err (Fault f) →
            (f ≡ record { kind = kind.TooDeep; at = at }) × (most_open ≤ length self.old.parents) }
    {
        if self.parents.len() >= MAX_OPEN as usize {
            return Err(fault(FaultKind::TooDeep, at));
        }
        self.parents.push(self.last)?;
        self.is_reading = false;
        Ok(())
    }

    // The innermost bracket is closed. With the outermost one the game ends.
    pub(crate) fn close_bracket(&mut self) -> Result<Place, ReadError>
        ensures ok { IfOk result (λ place.
            (self.new ≡ closed_view self.old self.old.parents)
            × (place ≡ closed_place self.old.parents)) }
        ensures fault { (f : SgfFault) → result ≡ Err (Fault f) → ⊥ }
    {
        self.is_reading = false;
        let Some(parent) = self.parents.pop() else {
            return Ok(Place::Outside);
        };
        self.last = parent;
        if !self.parents.is_empty() {
            return Ok(Place::Within(Phase::AfterTree));
        }
        self.end_game()?;
        Ok(Place::Outside)
    }

    // The game has the nodes so far and no more.
    fn end_game(&mut self) -> Result<(), ReadError>
        ensures ok { IfOk result (λ _. self.new ≡ record self.old {
          games = self.old.games ++ record { nodes = self.old.nodes } ∷ [];
          nodes = [];
          is_reading = false;
        }) }
        ensures fault { (f : SgfFault) → result ≡ Err (Fault f) → ⊥ }
    {
        let end = self.nodes.len();
        self.ends.push(end)?;
        self.first = end;
        self.is_reading = false;
        Ok(())
    }

    // A game begins: its bracket at the first offset, its root at the second.
    pub(crate) fn begin_game(&mut self, from: u32, at: u32) -> Result<(), ReadError>
        ensures ok { IfOk result (λ _.
            (self.new ≡ with_raw_node (record self.old {
              is_reading = false;
              parents = None ∷ self.old.parents;
              last = None;
            }))
            × (length self.old.games < most_games)) }
        ensures fault { (f : SgfFault) → result ≡ Err (Fault f) →
            ((f ≡ record { kind = kind.TooManyGames; at = from })
            × (most_games ≤ length self.old.games))
            ⊎ (most_nodes ≤ length self.old.nodes) }
    {
        if self.game_count() >= MAX_GAMES as usize {
            return Err(fault(FaultKind::TooManyGames, from));
        }
        self.is_reading = false;
        self.parents.push(None)?;
        self.last = None;
        self.begin_node(at)
    }

    // The text ends at this offset. The games are its collection where it ends outside trees,
    // behind one or more.
    pub(crate) fn finish(self, place: Place, at: u32) -> Result<FlatCollection, ReadError>
        ensures ok { IfOk result (λ collection.
            (collection ≡ record { games = self.games }) × (1 ≤ length self.games)
            × IsPlaceOutside place) }
        ensures fault { (f : SgfFault) → result ≡ Err (Fault f) → IsEndFault self place at f }
    {
        if let Place::Within(_) = place {
            return Err(fault(FaultKind::Ended, at));
        }
        if self.game_count() == 0 {
            return Err(fault(FaultKind::NoGame, at));
        }
        Ok(FlatCollection::stored(self.pairs, self.nodes, self.ends))
    }
}
