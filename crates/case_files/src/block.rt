// The blocks of a file of cases.
use std::alloc::{AllocError, Global};

/// A block: the number of its first line, from 1, that line, and the lines below it, up to `----`
/// and behind it. `is_told` says that there is such a line.
#[derive(Drop)]
pub(crate) struct Block<'a> {
    pub(crate) line: u64,
    pub(crate) head: &'a str,
    pub(crate) given: Vec<&'a str>,
    pub(crate) expected: Vec<&'a str>,
    pub(crate) is_told: bool,
}

impl<'a> Block<'a> {
    fn new(alloc: Global, line: u64, head: &'a str) -> Self {
        Block {
            line,
            head,
            given: Vec::new(alloc),
            expected: Vec::new(alloc),
            is_told: false,
        }
    }

    fn push(&mut self, line: &'a str) -> Result<(), AllocError> {
        if self.is_told {
            self.expected.push(line)?;
        } else if line == "----" {
            self.is_told = true;
        } else {
            self.given.push(line)?;
        }
        Ok(())
    }
}

/// The blocks of a text, in order.
pub(crate) fn blocks_of(alloc: Global, text: &str) -> Result<Vec<Block<'_>>, AllocError> {
    let mut blocks = Vec::new(alloc);
    let mut open: Option<Block<'_>> = None;
    let mut number = 0u64;
    for line in text.lines() {
        number = number.saturating_add(1);
        match open {
            Some(block) if line.is_empty() => {
                blocks.push(block)?;
                open = None;
            }
            Some(mut block) => {
                block.push(line)?;
                open = Some(block);
            }
            None if line.is_empty() || line.starts_with("#") => open = None,
            None => open = Some(Block::new(alloc, number, line)),
        }
    }
    if let Some(block) = open {
        blocks.push(block)?;
    }
    Ok(blocks)
}
