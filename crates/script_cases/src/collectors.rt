// Collectors that are fed with hits, step by step.
use crate::hits::hit_of;
use crate::row::{Row, row_of, text_of};
use case_files::{Case, CaseError};
use hit_collectors::{Collector, Counter, Kind, feed, retire};
use kb_geometry::append;
use pattern_images::Hit;
use std::alloc::Global;

/// Appends what the steps of a case print.
pub fn answer(alloc: Global, case: &Case<'_>, out: &mut Vec<u8>) -> Result<(), CaseError> {
    let mut counters = Vec::new(alloc);
    let mut hits = Vec::new(alloc);
    for line in text_of(case.text())?.lines() {
        let row = row_of(alloc, line)?;
        match row.word(0) {
            "hit" => hits.push(hit_of(&row)?)?,
            "feed" => feed_all(&mut counters, &mut hits)?,
            _ => step(alloc, &row, &mut counters, out)?,
        }
    }
    Ok(())
}

// Gives the hits to all collectors. Then there are none left to give.
fn feed_all(counters: &mut Vec<Counter>, hits: &mut Vec<Hit>) -> Result<(), CaseError> {
    feed(counters, hits)?;
    hits.clear();
    Ok(())
}

fn step(
    alloc: Global,
    row: &Row<'_>,
    counters: &mut Vec<Counter>,
    out: &mut Vec<u8>,
) -> Result<(), CaseError> {
    match row.word(0) {
        "counter" => {
            let name = String::from_str(alloc, row.text)?;
            counters.push(Counter::new(name, kind_of(row.word(1))?)?)?;
            Ok(())
        }
        "report" => append_reports(counters, out),
        "retire" => append_retired(counters, row.text, out),
        _ => Err(CaseError::Bad("unknown step")),
    }
}

fn kind_of(word: &str) -> Result<Kind, CaseError> {
    match word {
        "total" => Ok(Kind::Total),
        "labels" => Ok(Kind::Labels),
        "phases" => Ok(Kind::Phases),
        "outcomes" => Ok(Kind::Outcomes),
        "nexts" => Ok(Kind::Nexts),
        _ => Err(CaseError::Bad("no kind of collector")),
    }
}

fn append_reports(counters: &[Counter], out: &mut Vec<u8>) -> Result<(), CaseError> {
    for counter in counters {
        counter.report(out)?;
    }
    Ok(())
}

fn append_retired(
    counters: &mut Vec<Counter>,
    name: &str,
    out: &mut Vec<u8>,
) -> Result<(), CaseError> {
    let told: &[u8] = match retire(counters, name) {
        Ok(()) => b"retired\n",
        Err(_) => b"no such name\n",
    };
    Ok(append(out, told)?)
}
