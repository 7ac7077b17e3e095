// The words of a line.
ghost use Rattle.std.specs.Prelude.{◌≡◌, ◌↔◌, IsTrue};
ghost use Rattle.query_script.specs.Words.{bare, bytes_of};

use game_tree::Bytes;

// A word of a line: bare, or between quotes, then without these and without the `\` before a `"`
// or a `\`.
#[derive(Debug, Drop)]
pub(crate) enum Word {
    Bare(Bytes),
    Quoted(Bytes),
}

impl Word {
    // Whether it is the bare word of these letters.
    pub(crate) fn is_bare(&self, letters: &[u8]) -> bool
        ensures { IsTrue result ↔ (self.now ≡ bare letters.now) }
    {
        match self {
            Word::Bare(bytes) => bytes.as_slice() == letters,
            Word::Quoted(_) => false,
        }
    }

    // Its bytes, without quotes.
    pub(crate) fn bytes(&self) -> &[u8]
        ensures { result.now ≡ bytes_of self.now }
    {
        match self {
            Word::Bare(bytes) | Word::Quoted(bytes) => bytes.as_slice(),
        }
    }
}
