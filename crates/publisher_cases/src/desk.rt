// A publisher beside its searchers.
ghost use Rattle.std.specs.Prelude.{◌≡◌, ◌+◌, ◌≤◌, ◌++◌, ◌∷◌, [], length, IfOk};
ghost use Rattle.std.specs.Bool.{OnFalse, OnTrue};
ghost use Rattle.std.specs.Arc.{arc_value};
ghost use Rattle.version_publisher.specs.Contents.{items_in};

use crate::numbers::{
    MOST_NUMBERS, Numbers, append_part, append_version, count_of, merged, part_of,
};
use crate::readers::{Readers, append_refusal};
use case_files::CaseError;
use kb_geometry::append;
use std::alloc::Global;
use std::sync::{Arc, Wait};
use version_publisher::{Part, Publisher, Receipt, Searcher};

/// A publisher and its searchers, and bounds of how many parts and numbers were appended.
pub struct Desk {
    pub publisher: Publisher<Numbers>,
    pub readers: Readers,
    pub parts: u32,
    pub numbers: u32,
    ghost opened: { readers.receipt.opening ≡ publisher.opening },
    ghost few_parts: { length (publisher.log ++ publisher.pending) ≤ parts },
    ghost few_numbers: { length (items_in (publisher.log ++ publisher.pending)) ≤ numbers },
}

impl Desk {
    /// What a line says: a step of the publisher, or else of its searchers.
    pub fn step<R: Wait>(
        &mut self,
        rt: &R,
        alloc: Global,
        line: &str,
        out: &mut Vec<u8>,
    ) -> Result<(), CaseError> {
        let (name, rest) = line.split_once(" ").unwrap_or((line, ""));
        match name {
            "append" => self.append(alloc, rest, out),
            "publish" => self.publish(rt, alloc, out),
            "merge" => self.merge(alloc, out),
            "receipt" => self.take_receipt(alloc, out),
            "meet" => self.meet(rt, rest),
            "whole" => self.look_with(alloc, rest, out),
            _ => self.tell(alloc, name, rest, out),
        }
    }

    // Appends a part of these numbers.
    fn append(&mut self, alloc: Global, text: &str, out: &mut Vec<u8>) -> Result<(), CaseError> {
        let part = part_of(alloc, text)?;
        let count = count_of(&part);
        let Some(room) = MOST_NUMBERS.checked_sub(self.numbers) else {
            return Err(CaseError::Bad("too many numbers"));
        };
        if count > room || self.parts >= MOST_NUMBERS {
            return Err(CaseError::Bad("too many numbers"));
        }
        if !append_to(&mut self.publisher, part) {
            return Err(CaseError::NoMemory);
        }
        self.parts += 1;
        self.numbers += count;
        Ok(append(out, format!(in alloc; "appended {count}\n")?.as_bytes())?)
    }

    // Publishes, and keeps the receipt.
    fn publish<R: Wait>(
        &mut self,
        rt: &R,
        alloc: Global,
        out: &mut Vec<u8>,
    ) -> Result<(), CaseError> {
        let receipt = publish_all(rt, &mut self.publisher)?;
        let number = receipt.copy().number();
        self.readers.receipt = receipt;
        Ok(append(out, format!(in alloc; "published {number}\n")?.as_bytes())?)
    }

    // Keeps a receipt of what is published now.
    fn take_receipt(&mut self, alloc: Global, out: &mut Vec<u8>) -> Result<(), CaseError> {
        let receipt = self.publisher.receipt();
        let number = receipt.number();
        self.readers.receipt = receipt;
        Ok(append(out, format!(in alloc; "receipt {number}\n")?.as_bytes())?)
    }

    // Merges the last two published parts, if there are two and nothing is pending.
    fn merge(&mut self, alloc: Global, out: &mut Vec<u8>) -> Result<(), CaseError> {
        match merge_last_two(alloc, &mut self.publisher)? {
            true => Ok(append(out, b"merged\n")?),
            false => Ok(append(out, b"not merged\n")?),
        }
    }

    // A searcher waits until it has found all that is published.
    fn meet<R: Wait>(&mut self, rt: &R, name: &str) -> Result<(), CaseError> {
        match name {
            "one" => self.readers.one.meet(rt, &self.publisher),
            "two" => self.readers.two.meet(rt, &self.publisher),
            _ => return Err(CaseError::Bad("no such searcher")),
        }
        Ok(())
    }

    // A searcher looks at all that is published.
    fn look_with(&mut self, alloc: Global, name: &str, out: &mut Vec<u8>) -> Result<(), CaseError> {
        let publisher = &self.publisher;
        match name {
            "one" => look_at_whole(alloc, &mut self.readers.one, publisher, out),
            "two" => look_at_whole(alloc, &mut self.readers.two, publisher, out),
            _ => Err(CaseError::Bad("no such searcher")),
        }
    }

    // What only tells something of the publisher, and the steps of searchers.
    fn tell(
        &mut self,
        alloc: Global,
        name: &str,
        rest: &str,
        out: &mut Vec<u8>,
    ) -> Result<(), CaseError> {
        match name {
            "number" => append_number(alloc, &self.publisher, out),
            "pending" => append_pending(&self.publisher, out),
            "last" => append_last_two(alloc, &self.publisher, out),
            _ => match self.readers.step(alloc, (name, rest), out)? {
                true => Ok(()),
                false => Err(CaseError::Bad("unknown step")),
            },
        }
    }

    /// Ends the publisher, and leaves the searchers.
    pub fn close<R: Wait>(self, rt: &R) -> Readers {
        let Desk {
            publisher,
            readers,
            parts: _,
            numbers: _,
        } = self;
        publisher.close(rt);
        readers
    }
}

// Adds a part to the pending ones, unless memory is refused.
fn append_to(publisher: &mut Publisher<Numbers>, part: Arc<Numbers>) -> bool
    requires room { length (items_in (publisher.old.log
        ++ publisher.old.pending)) + length (arc_value part).all.items ≤ 1000 }
    requires number { length (publisher.old.log ++ publisher.old.pending) ≤ 1000 }
    ensures opening { publisher.new.opening ≡ publisher.old.opening }
    ensures log { OnTrue result (publisher.new.log ++ publisher.new.pending
        ≡ (publisher.old.log ++ publisher.old.pending) ++ (arc_value part).all.items ∷ []) }
    ensures same { OnFalse result (publisher.new ≡ publisher.old) }
{
    publisher.append(part).is_ok()
}

fn publish_all<R: Wait>(
    rt: &R,
    publisher: &mut Publisher<Numbers>,
) -> Result<Receipt<Numbers>, CaseError>
    ensures opening { publisher.new.opening ≡ publisher.old.opening }
    ensures log { publisher.new.log ++ publisher.new.pending
        ≡ publisher.old.log ++ publisher.old.pending }
    ensures receipt { IfOk result (λ receipt. receipt.opening ≡ publisher.old.opening) }
{
    Ok(publisher.publish(rt)?)
}

// Whether the last two published parts were merged, which the next publish shows.
fn merge_last_two(alloc: Global, publisher: &mut Publisher<Numbers>) -> Result<bool, CaseError>
    ensures opening { publisher.new.opening ≡ publisher.old.opening }
    ensures log { (publisher.new.log ≡ publisher.old.log)
        × (publisher.new.pending ≡ publisher.old.pending) }
{
    let Some((one, other)) = publisher.last_two() else {
        return Ok(false);
    };
    let part = merged(alloc, one, other)?;
    match publisher.merge_last(part) {
        Ok(()) => Ok(true),
        Err(_) => Err(CaseError::NoMemory),
    }
}

fn look_at_whole(
    alloc: Global,
    searcher: &mut Searcher<Numbers>,
    publisher: &Publisher<Numbers>,
    out: &mut Vec<u8>,
) -> Result<(), CaseError>
    requires { searcher.old.opening ≡ publisher.now.opening }
    ensures { searcher.new.opening ≡ searcher.old.opening }
{
    match searcher.look_with(alloc, publisher) {
        Ok(version) => append_version(alloc, &version, out),
        Err(error) => append_refusal(error, out),
    }
}

fn append_number(
    alloc: Global,
    publisher: &Publisher<Numbers>,
    out: &mut Vec<u8>,
) -> Result<(), CaseError> {
    let number = publisher.number();
    Ok(append(out, format!(in alloc; "number {number}\n")?.as_bytes())?)
}

fn append_pending(publisher: &Publisher<Numbers>, out: &mut Vec<u8>) -> Result<(), CaseError> {
    let told: &[u8] = if publisher.has_pending() {
        b"something waits\n"
    } else {
        b"nothing waits\n"
    };
    Ok(append(out, told)?)
}

// Appends the last two published parts, if the publisher lends them.
fn append_last_two(
    alloc: Global,
    publisher: &Publisher<Numbers>,
    out: &mut Vec<u8>,
) -> Result<(), CaseError> {
    append(out, b"last")?;
    match publisher.last_two() {
        Some((one, other)) => {
            append_part(alloc, one, out)?;
            append_part(alloc, other, out)?;
        }
        None => append(out, b" none")?,
    }
    Ok(append(out, b"\n")?)
}
