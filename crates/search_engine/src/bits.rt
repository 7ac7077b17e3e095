// Bits of a word, one for each game of a block.
ghost use Rattle.std.specs.Prelude.{◌≡◌, ◌<◌, ◌≤◌, ℕ, IfNone, IfSome, IsTrue};
ghost use Rattle.std.specs.Int.{bit_at};
ghost use Rattle.search_engine.specs.BlockCandidates.{IsNextBit, IsWithBit};

// The place of the first bit of a word from a place on.
pub(crate) fn next_bit(word: u64, from: usize) -> Option<usize>
    ensures some { IfSome result (IsNextBit word from) }
    ensures none { IfNone result ((g : ℕ) → from ≤ g → g < 64 → bit_at word g ≡ 0) }
{
    if from >= 64 {
        return None;
    }
    let rest = word >> from;
    if rest == 0 {
        return None;
    }
    Some(from + rest.trailing_zeros() as usize)
}

// The word with the bit of a place set, if it is to be set.
pub(crate) fn with_bit(word: u64, at: usize, set: bool) -> u64
    requires { at < 64 }
    ensures { IsWithBit word at (IsTrue set) result }
{
    if set { word | 1 << at } else { word }
}
