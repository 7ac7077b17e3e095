// Two searchers, a receipt for them, and a version that is held.
ghost use Rattle.std.specs.Prelude.{◌≡◌};

use crate::numbers::{Numbers, append_version};
use case_files::CaseError;
use kb_geometry::append;
use std::alloc::Global;
use version_publisher::{LookError, Receipt, Searcher, Version};

/// Two searchers of one opening, a receipt of it, and a version that is held.
#[derive(Drop)]
pub struct Readers {
    pub one: Searcher<Numbers>,
    pub two: Searcher<Numbers>,
    pub receipt: Receipt<Numbers>,
    pub held: Version<Numbers>,
    ghost one_opened: { one.opening ≡ receipt.opening },
    ghost two_opened: { two.opening ≡ receipt.opening },
}

impl Readers {
    /// What these words say, which need no publisher. `None`: they are no step of readers.
    pub fn step(
        &mut self,
        alloc: Global,
        words: (&str, &str),
        out: &mut Vec<u8>,
    ) -> Result<bool, CaseError>
        ensures { self.new.receipt ≡ self.old.receipt }
    {
        match words {
            ("look", "one") => look(alloc, &mut self.one, out)?,
            ("look", "two") => look(alloc, &mut self.two, out)?,
            ("learn", "one") => self.one.learn(self.receipt.copy()),
            ("learn", "two") => self.two.learn(self.receipt.copy()),
            ("tell", "one") => self.one.learn(self.two.seen()),
            ("tell", "two") => self.two.learn(self.one.seen()),
            ("seen", "one") => append_seen(alloc, &self.one, out)?,
            ("seen", "two") => append_seen(alloc, &self.two, out)?,
            ("hold", "one") => self.hold(alloc, out)?,
            ("held", _) => append_version(alloc, &self.held, out)?,
            _ => return Ok(false),
        }
        Ok(true)
    }

    // Holds the version that the first searcher finds.
    fn hold(&mut self, alloc: Global, out: &mut Vec<u8>) -> Result<(), CaseError>
        ensures { self.new.receipt ≡ self.old.receipt }
    {
        match self.one.look(alloc) {
            Ok(version) => {
                self.held = version;
                Ok(())
            }
            Err(error) => append_refusal(error, out),
        }
    }
}

// A look of a searcher.
fn look(alloc: Global, searcher: &mut Searcher<Numbers>, out: &mut Vec<u8>) -> Result<(), CaseError>
    ensures { searcher.new.opening ≡ searcher.old.opening }
{
    match searcher.look(alloc) {
        Ok(version) => append_version(alloc, &version, out),
        Err(error) => append_refusal(error, out),
    }
}

/// Appends that a look gave no version.
pub fn append_refusal(error: LookError, out: &mut Vec<u8>) -> Result<(), CaseError> {
    match error {
        LookError::NotEntered => Ok(append(out, b"not entered\n")?),
        LookError::NoMemory => Err(CaseError::NoMemory),
    }
}

fn append_seen(
    alloc: Global,
    searcher: &Searcher<Numbers>,
    out: &mut Vec<u8>,
) -> Result<(), CaseError> {
    let number = searcher.seen().number();
    Ok(append(out, format!(in alloc; "seen {number}\n")?.as_bytes())?)
}
