// The one log of an opening, which only grows, and its end, where entries are appended.
ghost use Rattle.std.specs.Prelude.{◌≡◌, ◌+◌, ◌^◌, ◌<◌, ◌++◌, ◌∷◌, [], length, MatchBool};
ghost use Rattle.version_publisher.specs.LogRule.{length_word};

use crate::part::Part;
use logbook::{Gain, Offer, Plain, Play, Rule, Seen, Start, Word};
use std::collections::LinkedList;
use std::marker::PhantomData;

/// The rule of the log's book: its first word is the length of the log.
pub struct LogRule<P> {
    of: PhantomData<P>,
}

impl<P: Part> Rule<LinkedList<P::Item>, u64> for LogRule<P> {
    ghost use Rattle.std.specs.Prelude.{[]};
    ghost use base.Fml.{ftrue};
    ghost use Rattle.version_publisher.specs.LogRule.{CountsEntries};

    ghost holds = { λ cells log. CountsEntries cells log };

    ghost first = { [] };

    ghost hinted = { λ n log. Unit {0} };

    ghost shows = { λ log. [] };

    ghost keeps = { λ names log. ftrue };

    ghost moves = { λ ask before after answer. Unit {0} };
}

/// A caller that trades nothing in a step.
pub struct NoGain;

impl<T> Gain<LinkedList<T>, u64> for NoGain {
    ghost use base.Fml.{ftrue};

    ghost after = { λ names about answer. ftrue };
}

/// The step that appends a part's items as one entry.
pub struct AppendEntry;

impl<T> Play<LinkedList<T>, u64> for AppendEntry {
    ghost use Rattle.version_publisher.specs.LogRule.{Appends};

    ghost then = { Appends };
}

impl<P: Part> Plain<P, LinkedList<P::Item>, u64> for AppendEntry {
    ghost use Rattle.std.specs.Prelude.{None};

    ghost ask = { λ part. P.items part };

    ghost state = { λ part. None };
}

/// A token without bytes: the log has reached this list.
pub type LogToken<P> = Seen<LinkedList<<P as Part>::Item>, u64, LogRule<P>>;

/// The end of the log. One value alone appends to it.
#[derive(Drop)]
pub struct LogEnd<P: Part> {
    word: Word<LinkedList<P::Item>, u64, LogRule<P>>,
    pub token: LogToken<P>,
    count: u64,
    ghost is_length_word: { word ≡ length_word token.book },
    ghost is_counted: { count ≡ length token.log },
}

impl<P: Part> LogEnd<P> {
    /// The end of a new log, which is empty.
    pub fn new() -> LogEnd<P>
        ensures { result.token.log ≡ [] }
    {
        let (token, mut first, _second) = Seen::open(Start::alone(), 0, 0);
        LogEnd {
            word: Word::tracked(0, &mut first),
            token,
            count: 0,
        }
    }

    /// How many entries the log has.
    pub fn count(&self) -> u64
        ensures { result ≡ length self.now.token.log }
    {
        self.count
    }

    /// Appends a part's items as one entry. Answers false, with the log as it was, where the word
    /// isn't the count, which no other value can bring about.
    pub fn append(&mut self, part: &P) -> bool
        requires { length self.old.token.log + 1 < 2 ^ 64 }
        ensures book { self.new.token.book ≡ self.old.token.book }
        ensures log { MatchBool result (self.new.token.log
            ≡ self.old.token.log ++ P.items part.now ∷ [])
            (self.new.token.log ≡ self.old.token.log) }
    {
        let mut after = self.token.again();
        let mut offer: Offer<LinkedList<P::Item>, u64, LogRule<P>, NoGain> = after.plain::<
            NoGain,
            P,
            AppendEntry,
        >(part);
        let mut pen = after.no_pen();
        let count = self.count;
        let found = self
            .word
            .compare_exchange::<AppendEntry, NoGain>(
                count,
                count + 1,
                &mut after,
                &mut offer,
                &mut pen,
            );
        if found != count {
            return false;
        }
        self.token = after;
        self.count = count + 1;
        true
    }
}
