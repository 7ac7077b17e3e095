// The steps of a case.
use crate::desk::Desk;
use crate::numbers::Numbers;
use crate::readers::Readers;
use case_files::{Case, CaseError};
use kb_geometry::append;
use std::alloc::Global;
use std::sync::Wait;
use version_publisher::{Version, open};

/// Appends what the steps print, and then those of the part `closed`, when the publisher is ended.
pub fn answer<R: Wait>(
    rt: &R,
    alloc: Global,
    case: &Case<'_>,
    out: &mut Vec<u8>,
) -> Result<(), CaseError> {
    let mut desk = open_desk(rt, alloc)?;
    let done = take_steps(rt, alloc, &mut desk, text_of(case, ""), out);
    let mut readers = desk.close(rt);
    done?;
    take_last_steps(alloc, &mut readers, text_of(case, "closed"), out)
}

// The steps of a part; no step where they are no text.
fn text_of<'a>(case: &'a Case<'_>, part: &str) -> &'a str {
    std::str::from_utf8(case.part(part)).unwrap_or("?")
}

fn open_desk<R: Wait>(rt: &R, alloc: Global) -> Result<Desk, CaseError> {
    let Ok((publisher, searchers)) = open::<Numbers, R>(alloc, rt, 2) else {
        return Err(CaseError::NoMemory);
    };
    let mut searchers = searchers;
    let (Some(two), Some(one)) = (searchers.pop(), searchers.pop()) else {
        publisher.close(rt);
        return Err(CaseError::Bad("no two searchers"));
    };
    let receipt = publisher.receipt();
    Ok(Desk {
        publisher,
        readers: Readers {
            one,
            two,
            receipt,
            held: Version::empty(alloc),
        },
        parts: 0,
        numbers: 0,
    })
}

fn take_steps<R: Wait>(
    rt: &R,
    alloc: Global,
    desk: &mut Desk,
    text: &str,
    out: &mut Vec<u8>,
) -> Result<(), CaseError> {
    for line in text.lines() {
        desk.step(rt, alloc, line, out)?;
    }
    Ok(())
}

fn take_last_steps(
    alloc: Global,
    readers: &mut Readers,
    text: &str,
    out: &mut Vec<u8>,
) -> Result<(), CaseError> {
    for line in text.lines() {
        let words = line.split_once(" ").unwrap_or((line, ""));
        if !readers.step(alloc, words, out)? {
            return Err(CaseError::Bad("unknown step of a searcher"));
        }
    }
    Ok(())
}
