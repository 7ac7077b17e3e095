// The run over files of cases.
use crate::block::{Block, blocks_of};
use crate::escapes::{append_decoded, append_shown, append_text};
use crate::{Case, CaseError, Part};
use std::alloc::{AllocError, Global};
use std::io::{self, Write};
use std::rt::{Env, Files};
use std::{env, fs};

/// What a program answers to cases.
pub trait Kinds {
    /// Appends the answer to a case.
    fn answer(&self, alloc: Global, case: &Case<'_>, out: &mut Vec<u8>) -> Result<(), CaseError>;
}

/// How many cases there were, and how many answers differ from what is expected.
#[derive(Clone, Copy)]
pub struct Tally {
    pub cases: u64,
    pub differ: u64,
}

impl Tally {
    fn add(&mut self, is_as_expected: bool) {
        self.cases = self.cases.saturating_add(1);
        if !is_as_expected {
            self.differ = self.differ.saturating_add(1);
        }
    }
}

// A case of a file, and what is to come out.
#[derive(Drop)]
struct Question<'a> {
    case: Case<'a>,
    expected: Vec<u8>,
}

/// Runs the cases of the files that the command line names, and prints what differs, and a line for
/// each file and one for all.
pub fn run_files<R: Files + Env + Print + AllocGlobal, K: Kinds>(
    rt: &R,
    kinds: &K,
) -> io::Result<Tally> {
    let mut all = Tally {
        cases: 0,
        differ: 0,
    };
    for path in env::args(rt)?.skip(1) {
        let tally = run_file(rt, kinds, &path)?;
        all.cases = all.cases.saturating_add(tally.cases);
        all.differ = all.differ.saturating_add(tally.differ);
    }
    let Tally { cases, differ } = all;
    println!(rt; "{cases} cases, {differ} differ")?;
    Ok(all)
}

// Runs the cases of one file, prints what differs, and then the file's line.
fn run_file<R: Files + Print + AllocGlobal, K: Kinds>(
    rt: &R,
    kinds: &K,
    path: &str,
) -> io::Result<Tally> {
    let text = fs::read_to_string(rt, path)?;
    let mut report = Vec::new(rt.alloc());
    let tally = run_text(rt.alloc(), kinds, &text, &mut report)?;
    io::writer(rt).write_all(&report)?;
    let Tally { cases, differ } = tally;
    println!(rt; "{path}: {cases} cases, {differ} differ")?;
    Ok(tally)
}

// Runs the cases of a text, and appends to the report what differs.
fn run_text<K: Kinds>(
    alloc: Global,
    kinds: &K,
    text: &str,
    report: &mut Vec<u8>,
) -> Result<Tally, AllocError> {
    let mut tally = Tally {
        cases: 0,
        differ: 0,
    };
    for block in &blocks_of(alloc, text)? {
        match block.head.strip_prefix("each ") {
            Some(head) => run_lines(alloc, kinds, head, block, &mut tally, report)?,
            None => {
                let question = question_of_block(alloc, block);
                tally.add(run_one(alloc, kinds, block.line, question, report)?);
            }
        }
    }
    Ok(tally)
}

// Runs the cases of a block that has one in each line.
fn run_lines<K: Kinds>(
    alloc: Global,
    kinds: &K,
    head: &str,
    block: &Block<'_>,
    tally: &mut Tally,
    report: &mut Vec<u8>,
) -> Result<(), AllocError> {
    let mut number = block.line;
    for line in &block.given {
        number = number.saturating_add(1);
        let question = question_of_line(alloc, head, line);
        tally.add(run_one(alloc, kinds, number, question, report)?);
    }
    Ok(())
}

// The case of a block.
fn question_of_block<'a>(alloc: Global, block: &Block<'a>) -> Result<Question<'a>, CaseError> {
    if !block.is_told {
        return Err(CaseError::Bad("no line ----"));
    }
    let mut expected = Vec::new(alloc);
    append_decoded(&mut expected, &block.expected)?;
    let (kind, words) = kind_and_words(block.head);
    let case = Case {
        kind,
        words,
        parts: parts_of(alloc, &block.given)?,
    };
    Ok(Question { case, expected })
}

// The case of a line.
fn question_of_line<'a>(
    alloc: Global,
    head: &'a str,
    line: &'a str,
) -> Result<Question<'a>, CaseError> {
    let (given, told) = line.split_once(" =>").ok_or(CaseError::Bad("no =>"))?;
    let told = told.strip_prefix(" ").unwrap_or(told);
    let mut text = Vec::new(alloc);
    append_text(&mut text, given)?;
    let mut expected = Vec::new(alloc);
    append_text(&mut expected, told)?;
    expected.push(b'\n')?;
    let mut parts = Vec::new(alloc);
    parts.push(Part { name: "", text })?;
    let (kind, words) = kind_and_words(head);
    let case = Case { kind, words, parts };
    Ok(Question { case, expected })
}

fn kind_and_words(head: &str) -> (&str, &str) {
    head.split_once(" ").unwrap_or((head, ""))
}

// The parts of what is put in.
fn parts_of<'a>(alloc: Global, given: &[&'a str]) -> Result<Vec<Part<'a>>, CaseError> {
    let mut parts = Vec::new(alloc);
    let mut name = "";
    let mut lines = Vec::new(alloc);
    for line in given {
        match part_name(line) {
            Some(next) => {
                parts.push(part_of(alloc, name, &lines)?)?;
                name = next;
                lines.clear();
            }
            None => lines.push(*line)?,
        }
    }
    parts.push(part_of(alloc, name, &lines)?)?;
    Ok(parts)
}

// The name of the part that a line begins.
fn part_name(line: &str) -> Option<&str> {
    line.strip_prefix("-- ")?.strip_suffix(" --")
}

fn part_of<'a>(alloc: Global, name: &'a str, lines: &[&str]) -> Result<Part<'a>, CaseError> {
    let mut text = Vec::new(alloc);
    append_decoded(&mut text, lines)?;
    Ok(Part { name, text })
}

// Whether a case is answered as expected; if not, that is appended to the report.
fn run_one<K: Kinds>(
    alloc: Global,
    kinds: &K,
    line: u64,
    question: Result<Question<'_>, CaseError>,
    report: &mut Vec<u8>,
) -> Result<bool, AllocError> {
    let mut found = Vec::new(alloc);
    let judged = match &question {
        Ok(question) => answered(alloc, kinds, question, &mut found),
        Err(error) => Err(*error),
    };
    match judged {
        Ok(true) => return Ok(true),
        Ok(false) => write_head(report, line, "another answer")?,
        Err(CaseError::Bad(why)) => write_head(report, line, why)?,
        Err(CaseError::NoMemory) => write_head(report, line, "out of memory")?,
    }
    if let Ok(question) = &question {
        report.extend_from_slice(b"expected\n")?;
        append_shown(report, &question.expected)?;
        report.extend_from_slice(b"found\n")?;
        append_shown(report, &found)?;
    }
    Ok(false)
}

// Whether the answer is the one that is expected.
fn answered<K: Kinds>(
    alloc: Global,
    kinds: &K,
    question: &Question<'_>,
    found: &mut Vec<u8>,
) -> Result<bool, CaseError> {
    kinds.answer(alloc, &question.case, found)?;
    Ok(found.as_slice() == question.expected.as_slice())
}

fn write_head(report: &mut Vec<u8>, line: u64, why: &str) -> Result<(), AllocError> {
    let head = format!(in *report.allocator(); "line {line}: {why}\n")?;
    report.extend_from_slice(head.as_bytes())?;
    Ok(())
}
