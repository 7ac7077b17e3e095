//! Worked examples of searches in games, answered from text files.
//!
//! Stands on case_files, which reads the files, and on the crates that it asks: from the readers of
//! SGF up to search_engine. Each file of `data/` tells what its kinds of cases take and print.
#![tactic(auto)]

mod asked;
mod continuations;
mod finding;
mod games;
mod going_on;
mod hits;
mod plain;
mod runs;
mod sieve;
mod standing;
mod stored;
mod tables;
mod texts;
mod versions;
mod walks;

use case_files::{Case, CaseError, Kinds};
use kb_geometry::append;
use segment_store::FinishedGame;
use std::alloc::Global;
use std::io;
use std::thread::Threads;

// What answers cases, and says whether there was memory. It is a closure that holds the runtime, since a
// bound `Sync` says nothing in the `impl` of a trait.
#[derive(Drop)]
struct SearchKinds {
    answer: Box<dyn Fn(Global, &Case<'_>, &mut Vec<u8>) -> bool + Drop>,
    ghost callable: { IsAlwaysCallable answer },
}

impl Kinds for SearchKinds {
    fn answer(&self, alloc: Global, case: &Case<'_>, out: &mut Vec<u8>) -> Result<(), CaseError> {
        if (self.answer)(alloc, case, out) {
            Ok(())
        } else {
            Err(CaseError::NoMemory)
        }
    }
}

// Answers a case, where it isn't in the form of its kind with what is wrong.
fn answer_or_tell<R: Threads + Sync>(
    rt: &R,
    alloc: Global,
    case: &Case<'_>,
    out: &mut Vec<u8>,
) -> bool {
    match answer(rt, alloc, case, out) {
        Ok(()) => true,
        Err(CaseError::Bad(why)) => append(out, why.as_bytes()).is_ok(),
        Err(CaseError::NoMemory) => false,
    }
}

// A search over many games asks for threads.
fn answer<R: Threads + Sync>(
    rt: &R,
    alloc: Global,
    case: &Case<'_>,
    out: &mut Vec<u8>,
) -> Result<(), CaseError> {
    match case.kind {
        "blocks" => stored::blocks(alloc, case, out)?,
        "table" => tables::answer(alloc, case, out)?,
        "stored" => stored::games(alloc, case, out)?,
        "hits" => hits::answer(rt, alloc, case, out)?,
        "standing" => standing::answer(alloc, case, out)?,
        _ => of_games(alloc, case, out)?,
    }
    Ok(out.push(b'\n')?)
}

// The kinds that ask something of the games of one segment.
fn of_games(alloc: Global, case: &Case<'_>, out: &mut Vec<u8>) -> Result<(), CaseError> {
    let given = asked::given_of(case)?;
    let part = games::only_segment(alloc, given.games)?;
    match case.kind {
        "kept" => sieve::kept_games(alloc, given.asked, &part, out),
        "candidates" => sieve::candidates(alloc, given.asked, &part, out),
        "corner" => stored::corner(given.asked, &part, out),
        "planes" => stored::planes(given.asked, &part, out),
        _ => of_a_game(
            alloc,
            case.kind,
            given.asked,
            games::only_game(given.asked, &part)?,
            out,
        ),
    }
}

// The kinds that ask something of one game.
fn of_a_game(
    alloc: Global,
    kind: &str,
    asked: &str,
    game: &FinishedGame,
    out: &mut Vec<u8>,
) -> Result<(), CaseError> {
    match kind {
        "find" => finding::everywhere(alloc, asked, game, out),
        "find-at" => finding::at_nodes(alloc, asked, game, out),
        "holding" => going_on::answer(alloc, asked, game, out),
        "nodes" => sieve::nodes(alloc, asked, game, out),
        "wants" => sieve::wants(alloc, asked, game, out),
        "next" => continuations::answer(alloc, asked, game, out),
        "cells" => runs::cells(asked, game.runs(), out),
        "begins" => runs::begins(asked, game.runs(), out),
        "parents" => runs::parents(game.runs(), out),
        "wanted" => runs::wanted(alloc, asked, game.runs(), out),
        "unchanged" => runs::unchanged(asked, game.runs(), out),
        "sets" => stored::sets(game.ever(), game.tree().shape(), out),
        _ => Err(CaseError::Bad("unknown kind")),
    }
}

fn main(rt: HostRuntime) -> io::Result<()> {
    let own = rt.clone()?;
    let answer_one = move |alloc: Global, case: &Case<'_>, out: &mut Vec<u8>| -> bool {
        answer_or_tell(&own, alloc, case, out)
    };
    let kinds = SearchKinds {
        answer: Box::new(rt.alloc(), answer_one)?,
    };
    case_files::run_files(&rt, &kinds)?;
    Ok(())
}
