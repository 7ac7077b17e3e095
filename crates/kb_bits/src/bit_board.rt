//! A set of numbers below a bound, as words of 64 bits.
ghost use Rattle.std.specs.Prelude.{
  ◌≡◌,
  ◌≢◌,
  ℕ,
  ◌+◌,
  ◌<◌,
  ◌≤◌,
  ◌⊎◌,
  ◌↔◌,
  [],
  Contains,
  IfNone,
  IfSome,
  IsTrue,
  length,
  nat_eq,
  slice_index,
};
ghost use Rattle.std.specs.Int.{bit_at};
ghost use Rattle.std.specs.Cmp.{partial_equiv_from_equiv};
ghost use Rattle.std.specs.Cmp.Lexicographic.{pointwise};
ghost use Rattle.std.specs.List.Sorted.{IsStrictlyIncreasing};
ghost use Rattle.std.proofs.lemmas.Cmp.{nat_list_eq_equiv};
ghost use Rattle.kb_bits.specs.declared.bit_board.TheConstants.{BOUND};
ghost use Rattle.kb_bits.specs.Members.{IsNextFrom};
ghost use Rattle.kb_bits.specs.Words.{IsJoined};

use std::marker::Model;

/// One more than the greatest number that a set may have.
pub const BOUND: u16 = 2704;

// How many words hold a bit for each number.
const WORDS: usize = (BOUND as usize + 63) / 64;

// What the last word may hold: its bits below the bound.
const LAST_WORD: u64 = u64::MAX >> (64 * WORDS - BOUND as usize);

/// A set of numbers below `BOUND`. Each call goes over the words in use alone. A set that is handed
/// out has all its words, so one that is used again and again is better cleared than made anew.
#[derive(Debug, Drop)]
pub struct BitBoard {
    /// Number n stands at bit n % 64 of word n / 64.
    words: [u64; WORDS],
    /// How many words are in use: the last of these has a member, and those behind have none.
    used: usize,
}

impl Model for BitBoard {
    ghost use Rattle.std.specs.Prelude.{ℕ, List};

    ghost Value = { List ℕ };

    ghost use Rattle.kb_bits.specs.Words.{members, AreWordsOf};

    ghost view = { λ a. members a.words };

    ghost invariant = { λ a. AreWordsOf a.words a.used };
}

impl BitBoard {
    /// The empty set.
    pub fn empty() -> BitBoard
        ensures { result ≡ [] }
    {
        BitBoard {
            words: [0; WORDS],
            used: 0,
        }
    }

    /// All numbers below n.
    pub fn below(n: u16) -> BitBoard
        requires { n ≤ BOUND }
        ensures { (m : ℕ) → Contains result m ↔ (m < n) }
    {
        let full = usize::from(n / 64);
        let rest = n % 64;
        let mut words = [0; WORDS];
        for k in 0..full {
            words[k] = u64::MAX;
        }
        if rest == 0 {
            return BitBoard { words, used: full };
        }
        words[full] = (1 << rest) - 1;
        BitBoard {
            words,
            used: full + 1,
        }
    }

    /// Adds a number.
    pub fn insert(&mut self, n: u16)
        requires { n < BOUND }
        ensures { (m : ℕ) → Contains self.new m ↔ (Contains self.old m ⊎ (m ≡ n)) }
    {
        let word = usize::from(n / 64);
        self.words[word] |= 1 << (n % 64);
        self.used = self.used.max(word + 1);
    }

    /// Takes a number out. Where the last word in use has no other, those before it are looked at.
    pub fn remove(&mut self, n: u16)
        requires { n < BOUND }
        ensures { (m : ℕ) → Contains self.new m ↔ (Contains self.old m × (m ≢ n)) }
    {
        let word = usize::from(n / 64);
        self.words[word] &= !(1 << (n % 64));
        if word + 1 == self.used {
            self.used = words_in_use(&self.words, word + 1);
        }
    }

    /// Takes all numbers out.
    pub fn clear(&mut self)
        ensures { self.new ≡ [] }
    {
        for k in 0..self.used {
            self.words[k] = 0;
        }
        self.used = 0;
    }

    /// Whether the set has the number.
    pub fn contains(&self, n: u16) -> bool
        ensures { IsTrue result ↔ Contains self.now n }
    {
        let word = usize::from(n / 64);
        word < self.used && self.words[word] >> (n % 64) & 1 == 1
    }

    /// The numbers of both sets.
    pub fn union(&self, other: &BitBoard) -> BitBoard
        ensures { (m : ℕ) → Contains result m ↔ (Contains self.now m ⊎ Contains other.now m) }
    {
        let used = self.used.max(other.used);
        let mut words = [0; WORDS];
        for k in 0..used {
            words[k] = self.words[k] | other.words[k];
        }
        BitBoard { words, used }
    }

    /// Whether the set has each number of the other.
    pub fn contains_all(&self, other: &BitBoard) -> bool
        ensures { IsTrue result ↔ ((m : ℕ) → Contains other.now m → Contains self.now m) }
    {
        let mut missing = 0;
        for k in 0..other.used {
            missing |= other.words[k] & !self.words[k];
        }
        missing == 0
    }

    /// Each number plus `by`, without those from `BOUND` on.
    pub fn shifted(&self, by: u16) -> BitBoard
        ensures { (m : ℕ) → Contains result m
            ↔ ((k : ℕ) × Contains self.now k × (m ≡ k + by) × (m < BOUND)) }
    {
        let skip = usize::from(by / 64);
        if skip >= WORDS {
            return BitBoard::empty();
        }
        let bits = by % 64;
        let kept = self.used.min(WORDS - skip);
        let mut words = [0; WORDS];
        let mut before = 0;
        for k in 0..kept {
            let word = self.words[k];
            words[skip + k] = joined_word(word, before, bits);
            before = word;
        }
        let mut end = skip + kept;
        if end < WORDS {
            words[end] = joined_word(0, before, bits);
            end += 1;
        }
        words[WORDS - 1] &= LAST_WORD;
        let used = words_in_use(&words, end);
        BitBoard { words, used }
    }

    /// The least number of the set that is at least n.
    pub fn next_from(&self, n: u16) -> Option<u16>
        ensures some { IfSome result (IsNextFrom self.now n) }
        ensures none { IfNone result ((k : ℕ) → Contains self.now k → k < n) }
    {
        let first = usize::from(n / 64);
        if first >= self.used {
            return None;
        }
        let rest = self.words[first] >> (n % 64);
        if rest != 0 {
            return Some(n + rest.trailing_zeros() as u16);
        }
        for k in first + 1..self.used {
            let word = self.words[k];
            if word != 0 {
                return Some(64 * k as u16 + word.trailing_zeros() as u16);
            }
        }
        None
    }

    /// The numbers from `start` on as a word: bit k is set exactly where `start + k` is in the set.
    pub fn window(&self, start: u16) -> u64
        ensures { (k : ℕ) → k < 64 → (bit_at result k ≡ 1) ↔ Contains self.now (start + k) }
    {
        let first = usize::from(start / 64);
        let bits = start % 64;
        let low = word_at(&self.words, first);
        if bits == 0 {
            return low;
        }
        joined_word(word_at(&self.words, first + 1), low, 64 - bits)
    }

    /// How many numbers the set has.
    pub fn len(&self) -> u16
        ensures { result ≡ length self.now }
    {
        let mut count = 0;
        for word in 0..self.used {
            count += self.words[word].count_ones() as u16;
        }
        count
    }
}

impl PartialEq for BitBoard {
    ghost eq = { pointwise nat_eq };

    ghost laws = { partial_equiv_from_equiv nat_list_eq_equiv };

    fn eq(&self, other: &BitBoard) -> bool
        ensures value { result ≡ pointwise nat_eq self.now other.now }
        ensures same { IsTrue result ↔ (self.now ≡ other.now) }
    {
        if self.used != other.used {
            return false;
        }
        for k in 0..self.used {
            if self.words[k] != other.words[k] {
                return false;
            }
        }
        true
    }
}

impl Eq for BitBoard {
    ghost laws = { nat_list_eq_equiv };
}

/// A law: the bound, which contracts cite, is the number of points of a board of 52 by 52.
pub fn the_bound_is_2704()
    ensures { BOUND ≡ 2704 }
{}

/// A law: each number of a set stands once in its list, in order, and is below `BOUND`.
pub fn members_ascend(set: &BitBoard)
    ensures ascending { IsStrictlyIncreasing set.now }
    ensures below { (m : ℕ) → Contains set.now m → m < BOUND }
    ensures count { length set.now ≤ BOUND }
{
    let _words = &set.words;
}

/// A law: two sets with the same numbers are equal.
pub fn same_members_are_equal(one: &BitBoard, other: &BitBoard)
    ensures { ((m : ℕ) → Contains one.now m ↔ Contains other.now m) → one.now ≡ other.now }
{
    let _words = &one.words;
    let _words = &other.words;
}

// A word moved up by some bits, filled from the word before it.
fn joined_word(word: u64, before: u64, bits: u16) -> u64
    requires { bits < 64 }
    ensures { IsJoined word before bits result }
{
    // In two steps, since no shift may be by 64.
    word << bits | before >> 1 >> (63 - bits)
}

// The word with this number, 0 past the last one.
fn word_at(words: &[u64; WORDS], k: usize) -> u64
    ensures { result ≡ slice_index words.now k }
{
    if k < WORDS { words[k] } else { 0 }
}

// How many words are in use, up to the last that isn't 0, where those from `most` on are 0.
fn words_in_use(words: &[u64; WORDS], most: usize) -> usize
    requires { most ≤ WORDS }
    ensures fewer { result ≤ most }
    ensures behind { (k : ℕ) → result ≤ k → k < most → slice_index words.now k ≡ 0 }
    ensures last { (k : ℕ) → k + 1 ≡ result → 0 < slice_index words.now k }
{
    let mut used = most;
    while used > 0 && words[used - 1] == 0 {
        used -= 1;
    }
    used
}
