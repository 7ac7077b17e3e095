// What becomes of a file by its bytes.
ghost use Rattle.std.specs.Prelude.{◌≡◌, ◌<◌, IfOk, length};
ghost use Rattle.import_work.specs.declared.outcome.Parsed.TheVariants.{Refused};
ghost use Rattle.import_work.specs.Parsed.{IsParsed};
ghost use Rattle.import_work.specs.Outcome.{IsAddedBy, IsOutcome, nodes_of_trees};

use game_tree::{BuildError, GameTree, Setup, build_flat};
use kb_geometry::NoMemory;
use segment_store::MAX_BASE_GAMES;
use sgf_reader::{FaultKind, Pair, ReadError, SgfFault, read_flat};
use std::alloc::Global;

// While a text is parsed this is held of each value and each setup, beside its bytes, 16 bytes for
// each node that was read, and its trees' nodes.
const _: () = prove!(size_of::<Pair>() == 16);

const _: () = prove!(size_of::<Setup>() == 5);

/// The most nodes that a base may have.
pub const MAX_BASE_NODES: u32 = 67_108_864;

/// How many games and nodes a base has.
#[derive(Clone, Copy, Debug, PartialEq, Eq)]
pub struct Counts {
    pub games: u32,
    pub nodes: u32,
}

/// What became of a file.
#[derive(Clone, Copy, Debug, PartialEq, Eq)]
pub enum FileOutcome {
    /// All its games were added, so many.
    Accepted { games: u32 },
    /// Its text has this fault, at this byte offset.
    Refused { kind: FaultKind, at: u32 },
    /// The base would have had so many games and nodes, more than it may have.
    Full { games: u64, nodes: u64 },
    /// The folder did not give its bytes.
    Unread,
}

// What a text is: faulty, or games.
#[derive(Debug, Drop)]
pub(crate) enum Parsed {
    // Its first fault, at this byte offset.
    Refused { kind: FaultKind, at: u32 },
    // Its games, in order.
    Games(Vec<GameTree>),
}

// What becomes of a file with these bytes, and the games that it adds.
pub(crate) fn outcome_of(
    alloc: Global,
    bytes: &[u8],
    before: Counts,
) -> Result<(FileOutcome, Vec<GameTree>), NoMemory>
    ensures { IfOk result (λ r. IsOutcome bytes.now before r.0 r.1.items) }
{
    match parse(alloc, bytes) {
        Ok(Parsed::Refused { kind, at }) => Ok((
            FileOutcome::Refused { kind, at },
            Vec::new(alloc),
        )),
        Ok(Parsed::Games(trees)) => Ok(in_room(alloc, trees, before)),
        Err(error) => Err(error),
    }
}

// What a text is.
pub(crate) fn parse(alloc: Global, bytes: &[u8]) -> Result<Parsed, NoMemory>
    ensures { IfOk result (IsParsed bytes.now) }
{
    let collection = match read_flat(alloc, bytes) {
        Ok(collection) => collection,
        Err(ReadError::Fault(fault)) => return Ok(refused(fault)),
        Err(ReadError::NoMemory) => return Err(NoMemory),
    };
    match build_flat(alloc, bytes, &collection) {
        Ok(trees) => Ok(Parsed::Games(trees)),
        Err(BuildError::Fault(fault)) => Ok(refused(fault)),
        Err(BuildError::NoMemory) => Err(NoMemory),
    }
}

// A text with this fault.
fn refused(fault: SgfFault) -> Parsed
    ensures { result ≡ Refused fault.kind fault.at }
{
    let SgfFault { kind, at } = fault;
    Parsed::Refused { kind, at }
}

// These games, where there is room for them.
fn in_room(alloc: Global, trees: Vec<GameTree>, before: Counts) -> (FileOutcome, Vec<GameTree>)
    requires { length trees.items < 4294967296 }
    ensures { IsAddedBy before trees.items result.0 result.1.items }
{
    let games = u64::from(before.games) + trees.len() as u64;
    let nodes = u64::from(before.nodes) + nodes_of_trees(&trees);
    if games > u64::from(MAX_BASE_GAMES) || nodes > u64::from(MAX_BASE_NODES) {
        return (FileOutcome::Full { games, nodes }, Vec::new(alloc));
    }
    let games = trees.len() as u32;
    (FileOutcome::Accepted { games }, trees)
}

// How many nodes these trees have.
fn nodes_of_trees(trees: &[GameTree]) -> u64
    requires { length trees.now < 4294967296 }
    ensures value { result ≡ nodes_of_trees trees.now }
    ensures most { result < 281474976710656 }
{
    let mut nodes = 0;
    for tree in trees {
        nodes += u64::from(tree.node_count());
    }
    nodes
}
