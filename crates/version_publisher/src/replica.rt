// The two copies of the published value, their changes, and the rule that they keep.
ghost use Rattle.std.specs.Prelude.{◌≡◌, map, MatchResult};
ghost use Rattle.std.specs.Arc.{arc_value};
ghost use Rattle.version_publisher.specs.Contents.{merged_last};

use crate::log::LogToken;
use crate::part::Part;
use crate::state::{Content, Knowledge};
use atomic_table::{Join, Split};
use crossbeam_utils::rule::{Outcome, Protocol};
use left_right::Absorb;
use std::alloc::AllocError;
use std::marker::PhantomData;
use std::sync::Arc;
use std::vec::VecCloneMethods;

/// One copy of the published value. The token says that the log had reached what the parts hold.
#[derive(Drop)]
pub struct Replica<P: Part> {
    pub number: u64,
    pub parts: Vec<Arc<P>>,
    pub token: LogToken<P>,
}

/// A change of the published value, made to each copy in turn.
#[derive(Drop)]
pub enum Change<P: Part> {
    /// These parts come behind. The number and the token are those of the log with them.
    Append(Vec<Arc<P>>, u64, LogToken<P>),
    /// This part takes the place of the last two.
    MergeLast(Arc<P>),
}

impl<P: Part> Absorb<Change<P>> for Replica<P> {
    ghost use Rattle.version_publisher.specs.Replicas.{content_of, changed};

    type State = Content<P::Item>;

    ghost state = { content_of P.items };

    ghost applied = { changed P.items };

    fn absorb_first(
        &mut self,
        operation: &Change<P>,
        _other: &Replica<P>,
    ) -> Result<(), AllocError> {
        match operation {
            Change::Append(parts, number, token) => {
                self.parts.extend_from_slice(parts.as_slice())?;
                self.number = *number;
                self.token = token.again();
                Ok(())
            }
            Change::MergeLast(part) => merge_last(&mut self.parts, part),
        }
    }
}

// Puts one part in the place of the last two. It needs no more than the trait `Drop`, since a bound
// with `Send` isn't covered inside a trait's method.
fn merge_last<T: Drop>(parts: &mut Vec<Arc<T>>, part: &Arc<T>) -> Result<(), AllocError>
    ensures { MatchResult result
        (λ _. map arc_value parts.new.items
        ≡ merged_last (map arc_value parts.old.items) (arc_value part.now))
        (λ _. parts.new.items ≡ parts.old.items) }
{
    let part = Arc::try_clone(part)?;
    let len = parts.len();
    if len >= 2 {
        parts.truncate(len - 1);
        parts[len - 2] = part;
    }
    Ok(())
}

/// The rule of the published value: it is consistent, all who know an opening know its own, and
/// each log that is published, or that a reader has found, is one that the one publisher knows to
/// have published.
pub struct ReplicaRule<P> {
    of: PhantomData<P>,
}

impl<P: Part> Protocol<Replica<P>, Knowledge<P::Item>> for ReplicaRule<P> {
    ghost use Rattle.version_publisher.specs.Replicas.{content_of};
    ghost use Rattle.version_publisher.specs.Contents.{IsLawfulContent, nothing_known};

    ghost holds = { λ b views. IsLawfulContent P.MOST (content_of P.items b) views };

    ghost first = { nothing_known };
}

/// What a look tells of the published value.
pub struct Look;

impl<P: Part> Outcome<Replica<P>, Knowledge<P::Item>> for Look {
    ghost use Rattle.version_publisher.specs.Replicas.{content_of};
    ghost use Rattle.version_publisher.specs.Contents.{LookTells};

    ghost then = { λ v x y w. LookTells P.MOST v (content_of P.items y) w };
}

/// What a publish tells of the published value.
pub struct Publish;

impl<P: Part> Outcome<Replica<P>, Knowledge<P::Item>> for Publish {
    ghost use Rattle.version_publisher.specs.Replicas.{content_of};
    ghost use Rattle.version_publisher.specs.Contents.{PublishTells};

    ghost then = { λ v x y w. PublishTells v (content_of P.items y) w };
}

/// How the writer tells a new reader which opening it is of.
pub struct ShareOpening;

impl<T> Split<Knowledge<T>> for ShareOpening {
    ghost use Rattle.std.specs.Prelude.{[]};

    ghost left = { λ v. v };

    ghost right = { λ v. record { openings = v.openings; read = []; published = [] } };
}

impl<T> Join<Knowledge<T>> for ShareOpening {
    ghost use Rattle.std.specs.Prelude.{◌++◌};
    ghost use Rattle.version_publisher.specs.Contents.{nothing_known};

    ghost both = { λ v w. record v { openings = v.openings ++ w.openings } };

    ghost spent = { nothing_known };
}
