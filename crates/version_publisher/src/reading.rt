// How a reader reads the published value without waiting.
ghost use Rattle.std.specs.Prelude.{◌≡◌, List, [], ◌∷◌, length, IfOk, IfSome};
ghost use mathlib.Core.List.{IsPrefix};
ghost use Rattle.left_right.specs.Sides.{view};
ghost use Rattle.version_publisher.specs.Contents.{book_name_of, items_in, IsConsistent, KnowsOne};
ghost use Rattle.version_publisher.specs.Replicas.{content_of};

use crate::handles::ReplicaReader;
use crate::part::Part;
use crate::receipt::Receipt;
use crate::replica::{Look, Replica};
use crate::searcher::LookError;
use crate::version::Version;
use core::mem::replace_with;
use std::alloc::Global;

// A version with the parts of a copy, and a receipt of the log that they hold.
fn version_of<P: Part>(
    replica: &Replica<P>,
    alloc: Global,
) -> Result<(Version<P>, Receipt<P>), LookError>
    requires consistent { IsConsistent P.MOST (content_of P.items replica.now) }
    ensures { IfOk result (λ t. (t.1.opening ≡ book_name_of replica.now.token.book)
        × (t.1.log ≡ replica.now.token.log) × (t.0.number ≡ length t.1.log)
        × (items_in t.0.parts ≡ items_in t.1.log)) }
{
    let version = Version::of(alloc, replica.number, replica.parts.as_slice())?;
    Ok((version, Receipt::new(replica.number, &replica.token)))
}

// Enters, copies what is published, and leaves.
fn enter<P: Part>(
    reader: ReplicaReader<P>,
    alloc: Global,
) -> (
    ReplicaReader<P>,
    Result<(Version<P>, Receipt<P>), LookError>,
)
    requires one { KnowsOne (view reader.place).openings }
    ensures reader { ((view result.0.place).openings ≡ (view reader.place).openings)
        × IsPrefix (view reader.place).read (view result.0.place).read }
    ensures read { IfOk result.1 (λ t. ((view reader.place).openings ≡ t.1.opening ∷ [])
        × (t.1.log ≡ (view result.0.place).read) × (t.0.number ≡ length t.1.log)
        × (items_in t.0.parts ≡ items_in t.1.log)
        × ((log : List (List P.Item)) → IsPrefix log (view reader.place).read →
        IsPrefix log t.1.log)) }
{
    let reading = match reader.enter_as::<Look>() {
        Ok(reading) => reading,
        Err(reader) => return (reader, Err(LookError::NotEntered)),
    };
    let found = version_of(reading.get(), alloc);
    (reading.leave(), found)
}

/// What is published, as a version and a receipt of the log that it holds.
pub fn read<P: Part>(
    reader: &mut ReplicaReader<P>,
    alloc: Global,
) -> Result<(Version<P>, Receipt<P>), LookError>
    requires one { KnowsOne (view reader.old.place).openings }
    ensures reader { ((view reader.new.place).openings ≡ (view reader.old.place).openings)
        × IsPrefix (view reader.old.place).read (view reader.new.place).read }
    ensures read { IfOk result (λ t. ((view reader.old.place).openings ≡ t.1.opening ∷ [])
        × (t.1.log ≡ (view reader.new.place).read) × (t.0.number ≡ length t.1.log)
        × (items_in t.0.parts ≡ items_in t.1.log)
        × ((log : List (List P.Item)) → IsPrefix log (view reader.old.place).read →
        IsPrefix log t.1.log)) }
{
    replace_with(
        reader,
        alloc,
        |reader: ReplicaReader<P>, alloc: Global|
            requires { KnowsOne (view reader.place).openings }
        { enter(reader, alloc) },
    )
}

// Enters, takes a receipt of what is published, and leaves.
fn enter_for_receipt<P: Part>(
    reader: ReplicaReader<P>,
    (): (),
) -> (ReplicaReader<P>, Option<Receipt<P>>)
    requires one { KnowsOne (view reader.place).openings }
    ensures reader { ((view result.0.place).openings ≡ (view reader.place).openings)
        × IsPrefix (view reader.place).read (view result.0.place).read }
    ensures read { IfSome result.1 (λ r. ((view reader.place).openings ≡ r.opening ∷ [])
        × (r.log ≡ (view result.0.place).read)) }
{
    let reading = match reader.enter_as::<Look>() {
        Ok(reading) => reading,
        Err(reader) => return (reader, None),
    };
    let replica = reading.get();
    let found = Receipt::new(replica.number, &replica.token);
    (reading.leave(), Some(found))
}

/// A receipt of what is published. It takes no memory.
pub fn read_receipt<P: Part>(reader: &mut ReplicaReader<P>) -> Option<Receipt<P>>
    requires one { KnowsOne (view reader.old.place).openings }
    ensures reader { ((view reader.new.place).openings ≡ (view reader.old.place).openings)
        × IsPrefix (view reader.old.place).read (view reader.new.place).read }
    ensures read { IfSome result (λ r. ((view reader.old.place).openings ≡ r.opening ∷ [])
        × (r.log ≡ (view reader.new.place).read)) }
{
    replace_with(
        reader,
        (),
        |reader: ReplicaReader<P>, nothing: ()|
            requires { KnowsOne (view reader.place).openings }
        { enter_for_receipt(reader, nothing) },
    )
}
