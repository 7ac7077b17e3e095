// How a publisher and its searchers are made.
ghost use Rattle.std.specs.Prelude.{◌≡◌, ◌≤◌, [], ◌∷◌, length, drop, false, All, IfOk};
ghost use Rattle.left_right.specs.Sides.{view as seat_view};
ghost use Rattle.version_publisher.specs.Contents.{book_name_of, content, IsNewSearcher};
ghost use Rattle.version_publisher.specs.Replicas.{content_of};

use crate::handles::{ReplicaWriter, new_reader, publish_queued};
use crate::log::{LogEnd, LogToken};
use crate::part::Part;
use crate::publisher::Publisher;
use crate::receipt::Receipt;
use crate::replica::Replica;
use crate::searcher::Searcher;
use kb_geometry::NoMemory;
use left_right::writer::Writer;
use std::alloc::Global;
use std::error::Error;
use std::fmt;
use std::sync::Wait;

/// Why nothing was opened.
#[derive(Clone, Copy, Debug, PartialEq, Eq)]
pub enum OpenError {
    /// `left_right` refused to make a reader.
    NoPlace,
    /// Memory was refused.
    NoMemory,
}

impl fmt::Display for OpenError {
    fn fmt<W: fmt::Write>(&self, f: &mut fmt::Formatter<W>) -> fmt::Result {
        f.write_str(match self {
            OpenError::NoPlace => "no place for a searcher",
            OpenError::NoMemory => "out of memory",
        })
    }
}

impl Error for OpenError {}

impl From<NoMemory> for OpenError {
    fn from(_: NoMemory) -> Self {
        OpenError::NoMemory
    }
}

fn empty_replica<P: Part>(alloc: Global, token: &LogToken<P>) -> Replica<P>
    ensures { content_of P.items result ≡ content 0 [] token.now.log token.now.book }
{
    Replica {
        number: 0,
        parts: Vec::new(alloc),
        token: token.again(),
    }
}

// The writer of an empty value, which knows its opening. It learns it by a publish of nothing.
fn new_writer<P: Part, R: Wait>(
    alloc: Global,
    rt: &R,
    token: &LogToken<P>,
    places: u32,
) -> Result<ReplicaWriter<P>, NoMemory>
    requires places { (1 ≤ places) × (places ≤ 64) }
    requires empty { token.now.log ≡ [] }
    ensures { IfOk result (λ w.
        ((seat_view w.desk.place).openings ≡ book_name_of token.now.book ∷ [])
        × ((seat_view w.desk.place).published ≡ [] ∷ [])
        × (content_of P.items w.desk.shown.value ≡ content 0 [] [] token.now.book)
        × (drop w.behind w.log.items ≡ [])) }
{
    let first: Replica<P> = empty_replica(alloc, token);
    let second: Replica<P> = empty_replica(alloc, token);
    let writer: ReplicaWriter<P> = Writer::new(alloc, first, second, places as usize)?;
    let (writer, published) = publish_queued(rt, writer);
    if published.is_err() {
        drop(writer.take(rt));
        return Err(NoMemory);
    }
    Ok(writer)
}

// So many searchers that have seen nothing.
fn new_searchers<P: Part>(
    alloc: Global,
    writer: &mut ReplicaWriter<P>,
    empty: &Receipt<P>,
    places: u32,
) -> Result<Vec<Searcher<P>>, OpenError>
    requires opening { (seat_view writer.old.desk.place).openings ≡ empty.now.opening ∷ [] }
    requires empty { empty.now.log ≡ [] }
    ensures same { (writer.new.desk.shown ≡ writer.old.desk.shown)
        × (writer.new.log ≡ writer.old.log) × (writer.new.behind ≡ writer.old.behind)
        × (seat_view writer.new.desk.place ≡ seat_view writer.old.desk.place) }
    ensures searchers { IfOk result (λ v. (length v.items ≡ places)
        × All (IsNewSearcher empty.now.opening) v.items) }
{
    let mut searchers = Vec::new(alloc);
    for i in 0..places {
        let Ok(reader) = new_reader(writer) else {
            return Err(OpenError::NoPlace);
        };
        if searchers.push(Searcher::new(reader, empty)).is_err() {
            return Err(OpenError::NoMemory);
        }
    }
    Ok(searchers)
}

/// A publisher whose log is empty, and so many searchers, 1 to 64, that have seen nothing. It may
/// wait where a refusal makes it end what it has made.
pub fn open<P: Part, R: Wait>(
    alloc: Global,
    rt: &R,
    places: u32,
) -> Result<(Publisher<P>, Vec<Searcher<P>>), OpenError>
    requires places { (1 ≤ places) × (places ≤ 64) }
    ensures publisher { IfOk result (λ t. (t.0.log ≡ []) × (t.0.published ≡ [] ∷ [])
        × (t.0.pending ≡ []) × (t.0.parts ≡ []) × (t.0.next_parts ≡ [])
        × (t.0.has_pending ≡ false)) }
    ensures searchers { IfOk result (λ t. (length t.1.items ≡ places)
        × All (IsNewSearcher t.0.opening) t.1.items) }
{
    let end = LogEnd::new();
    let empty = Receipt::new(end.count(), &end.token);
    let mut writer = new_writer(alloc, rt, &end.token, places)?;
    match new_searchers(alloc, &mut writer, &empty, places) {
        Ok(searchers) => Ok((Publisher::new(alloc, writer, end), searchers)),
        Err(error) => {
            drop(writer.take(rt));
            Err(error)
        }
    }
}
