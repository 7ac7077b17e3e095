// Sets of numbers by steps.
use crate::reading::{number_in, numbers_in, text_of};
use crate::writing::{put, put_between, put_members, put_number};
use case_files::{Case, CaseError};
use kb_bits::{BOUND, BitBoard};
use kb_geometry::append;
use std::alloc::Global;

// The set that the steps change, and one that stands aside.
#[derive(Drop)]
struct Sets {
    now: BitBoard,
    aside: BitBoard,
}

// What the steps tell of a set that begins with the numbers that stand behind the kind.
pub(crate) fn set(alloc: Global, case: &Case<'_>, out: &mut Vec<u8>) -> Result<(), CaseError> {
    let mut sets = Sets {
        now: set_of(&numbers_in(alloc, case.words)?)?,
        aside: BitBoard::empty(),
    };
    for step in text_of(case)?.split(";") {
        run_step(alloc, &mut sets, step.trim(), out)?;
    }
    Ok(())
}

// The set that stands aside, or the set of these numbers.
fn other_in(alloc: Global, sets: &Sets, words: &str) -> Result<BitBoard, CaseError> {
    if words == "aside" {
        Ok(sets.aside.union(&BitBoard::empty()))
    } else {
        set_of(&numbers_in(alloc, words)?)
    }
}

fn set_of(numbers: &[u16]) -> Result<BitBoard, CaseError> {
    let mut set = BitBoard::empty();
    put_in(&mut set, numbers)?;
    Ok(set)
}

fn put_in(set: &mut BitBoard, numbers: &[u16]) -> Result<(), CaseError> {
    for number in numbers {
        if *number >= BOUND {
            return Err(CaseError::Bad("a number past the bound"));
        }
        set.insert(*number);
    }
    Ok(())
}

fn take_out(set: &mut BitBoard, numbers: &[u16]) -> Result<(), CaseError> {
    for number in numbers {
        if *number >= BOUND {
            return Err(CaseError::Bad("a number past the bound"));
        }
        set.remove(*number);
    }
    Ok(())
}

// All numbers below one.
fn below(number: u16) -> Result<BitBoard, CaseError> {
    if number > BOUND {
        return Err(CaseError::Bad("a number past the bound"));
    }
    Ok(BitBoard::below(number))
}

// A step that changes the set, or one that tells of it.
fn run_step(
    alloc: Global,
    sets: &mut Sets,
    step: &str,
    out: &mut Vec<u8>,
) -> Result<(), CaseError> {
    let (name, rest) = step.split_once(" ").unwrap_or((step, ""));
    match name {
        "put" => put_in(&mut sets.now, &numbers_in(alloc, rest)?)?,
        "take" => take_out(&mut sets.now, &numbers_in(alloc, rest)?)?,
        "clear" => sets.now.clear(),
        "below" => sets.now = below(number_in(Some(rest))?)?,
        "shift" => sets.now = sets.now.shifted(number_in(Some(rest))?),
        "join" => sets.now = sets.now.union(&other_in(alloc, sets, rest)?),
        "aside" => {
            sets.aside = sets.now.union(&BitBoard::empty());
            sets.now.clear();
        }
        _ => {
            put_between(out, "; ")?;
            tell(alloc, sets, name, rest, out)?;
        }
    }
    Ok(())
}

// A step that tells of the set.
fn tell(
    alloc: Global,
    sets: &Sets,
    name: &str,
    rest: &str,
    out: &mut Vec<u8>,
) -> Result<(), CaseError> {
    let set = &sets.now;
    match name {
        "show" => put_set(out, set),
        "len" => put_number(out, u64::from(set.len())),
        "has" => put_answer(out, set.contains(number_in(Some(rest))?)),
        "next" => put_next(out, set.next_from(number_in(Some(rest))?)),
        "window" => put_window(out, set.window(number_in(Some(rest))?)),
        "all" => put_answer(out, set.contains_all(&other_in(alloc, sets, rest)?)),
        "within" => put_answer(out, other_in(alloc, sets, rest)?.contains_all(set)),
        "is" => put_answer(out, *set == other_in(alloc, sets, rest)?),
        _ => Err(CaseError::Bad("no step of a set")),
    }
}

fn put_set(out: &mut Vec<u8>, set: &BitBoard) -> Result<(), CaseError> {
    let mut members = Vec::new(*out.allocator());
    put_members(&mut members, None, set)?;
    Ok(append(out, &members)?)
}

fn put_answer(out: &mut Vec<u8>, is_so: bool) -> Result<(), CaseError> {
    put(out, if is_so { "yes" } else { "no" })
}

fn put_next(out: &mut Vec<u8>, next: Option<u16>) -> Result<(), CaseError> {
    match next {
        Some(next) => put_number(out, u64::from(next)),
        None => put(out, "none"),
    }
}

// The bits of a word that are set, or `none`.
fn put_window(out: &mut Vec<u8>, window: u64) -> Result<(), CaseError> {
    let mut bits = BitBoard::empty();
    for bit in 0..64u16 {
        if window >> bit & 1 == 1 {
            bits.insert(bit);
        }
    }
    put_set(out, &bits)
}
