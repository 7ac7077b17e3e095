// A proof that the log had reached a list, to be handed on and compared.
ghost use Rattle.std.specs.Prelude.{◌≡◌, ◌≤◌, length};
ghost use mathlib.Core.List.{IsPrefix};
ghost use Rattle.version_publisher.specs.Contents.{book_name_of};

use crate::log::LogToken;
use crate::part::Part;
use std::marker::Model;

/// Says that the log of its opening had so many parts, and which.
#[derive(Drop)]
pub struct Receipt<P: Part> {
    number: u64,
    token: LogToken<P>,
}

impl<P: Part> Model for Receipt<P> {
    ghost use Rattle.std.specs.Prelude.{◌≡◌, length};
    ghost use Rattle.version_publisher.specs.declared.state.ReceiptState.{ReceiptState};
    ghost use Rattle.version_publisher.specs.Contents.{book_name_of};

    ghost Value = { ReceiptState P.Item };

    ghost view = { λ r. record { opening = book_name_of r.token.book; log = r.token.log } };

    ghost invariant = { λ r. r.number ≡ length r.token.log };
}

impl<P: Part> Receipt<P> {
    pub(crate) fn new(number: u64, token: &LogToken<P>) -> Receipt<P>
        requires number { number ≡ length token.now.log }
        ensures opening { result.opening ≡ book_name_of token.now.book }
        ensures log { result.log ≡ token.now.log }
    {
        Receipt {
            number,
            token: token.again(),
        }
    }

    /// How many parts the log had.
    pub fn number(&self) -> u64
        ensures { result ≡ length self.now.log }
    {
        self.number
    }

    /// The same receipt again. It takes no memory.
    pub fn copy(&self) -> Receipt<P>
        ensures { result ≡ self.now }
    {
        Receipt {
            number: self.number,
            token: self.token.again(),
        }
    }

    /// A law: of two receipts of one opening, the shorter log is a prefix of the longer. `self`
    /// must be the one whose log isn't longer.
    pub fn begins(&self, longer: &Receipt<P>)
        requires opening { self.now.opening ≡ longer.now.opening }
        requires shorter { length self.now.log ≤ length longer.now.log }
        ensures { IsPrefix self.now.log longer.now.log }
    {
        let mut both = self.token.again();
        both.learn(&longer.token);
    }

    /// A law: two receipts of one opening and one number have the same log.
    pub fn equals(&self, other: &Receipt<P>)
        requires opening { self.now.opening ≡ other.now.opening }
        requires number { length self.now.log ≡ length other.now.log }
        ensures { self.now.log ≡ other.now.log }
    {
        self.begins(other);
    }
}
