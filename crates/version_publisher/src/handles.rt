// The writer and the readers of the published value under its rule.
ghost use Rattle.std.specs.Prelude.{◌≡◌, [], ◌++◌, ◌||◌, map, drop, IfOk, OnOk, MatchResult};
ghost use Rattle.std.specs.Arc.{arc_value};
ghost use Rattle.left_right.specs.Sides.{view};
ghost use Rattle.version_publisher.specs.Contents.{
  IsEmptyOrAmong,
  IsReady,
  MayFollow,
  after_publish,
  is_nonempty,
};
ghost use Rattle.version_publisher.specs.Replicas.{content_of, content_after};

use crate::log::LogEnd;
use crate::part::Part;
use crate::replica::{Change, Publish, Replica, ReplicaRule, ShareOpening};
use crate::state::Knowledge;
use core::mem::replace_with;
use kb_geometry::NoMemory;
use left_right::reader::Reader;
use left_right::writer::Writer;
use std::alloc::{AllocError, Global};
use std::mem::replace;
use std::sync::{Arc, Wait};

pub type ReplicaWriter<P> = Writer<
    Replica<P>,
    Change<P>,
    Knowledge<<P as Part>::Item>,
    ReplicaRule<P>,
>;

pub type ReplicaReader<P> = Reader<Replica<P>, Knowledge<<P as Part>::Item>, ReplicaRule<P>>;

/// Makes the queued changes and swaps the two copies. The writer then knows the opening, and that
/// it published this log.
pub fn publish_queued<P: Part, R: Wait>(
    rt: &R,
    writer: ReplicaWriter<P>,
) -> (ReplicaWriter<P>, Result<(), AllocError>)
    requires follows { MayFollow P.MOST (content_of P.items writer.desk.shown.value)
        (content_after P.items writer.desk.shown.value (drop writer.behind writer.log.items)) }
    requires known { IsEmptyOrAmong (content_of P.items writer.desk.shown.value).log
        (view writer.desk.place).published }
    ensures { MatchResult result.1
        (λ _. (content_of P.items result.0.desk.shown.value
        ≡ content_after P.items writer.desk.shown.value (drop writer.behind writer.log.items))
        × (drop result.0.behind result.0.log.items ≡ [])
        × (view result.0.desk.place
        ≡ after_publish (view writer.desk.place) (content_of P.items result.0.desk.shown.value))
        × IsEmptyOrAmong (content_of P.items result.0.desk.shown.value).log
        (view result.0.desk.place).published)
        (λ _. (result.0.desk.shown.value ≡ writer.desk.shown.value)
        × (drop result.0.behind result.0.log.items ≡ drop writer.behind writer.log.items)
        × (view result.0.desk.place ≡ view writer.desk.place)) }
{
    writer.publish_as::<Publish, R>(rt)
}

/// The same of a writer that stays where it is.
pub fn publish_in_place<P: Part, R: Wait>(
    rt: &R,
    writer: &mut ReplicaWriter<P>,
) -> Result<(), AllocError>
    requires { MayFollow P.MOST (content_of P.items writer.old.desk.shown.value)
        (content_after P.items writer.old.desk.shown.value
        (drop writer.old.behind writer.old.log.items))
        × IsEmptyOrAmong (content_of P.items writer.old.desk.shown.value).log
        (view writer.old.desk.place).published }
    ensures { MatchResult result
        (λ _. (content_of P.items writer.new.desk.shown.value
        ≡ content_after P.items writer.old.desk.shown.value
        (drop writer.old.behind writer.old.log.items))
        × (drop writer.new.behind writer.new.log.items ≡ [])
        × (view writer.new.desk.place
        ≡ after_publish (view writer.old.desk.place)
        (content_of P.items writer.new.desk.shown.value))
        × IsEmptyOrAmong (content_of P.items writer.new.desk.shown.value).log
        (view writer.new.desk.place).published)
        (λ _. (writer.new.desk.shown.value ≡ writer.old.desk.shown.value)
        × (drop writer.new.behind writer.new.log.items
        ≡ drop writer.old.behind writer.old.log.items)
        × (view writer.new.desk.place ≡ view writer.old.desk.place)) }
{
    replace_with(
        writer,
        rt,
        |w: ReplicaWriter<P>, rt: &R|
            requires { MayFollow P.MOST (content_of P.items w.desk.shown.value)
                (content_after P.items w.desk.shown.value (drop w.behind w.log.items))
                × IsEmptyOrAmong (content_of P.items w.desk.shown.value).log
                (view w.desk.place).published }
        { publish_queued(rt, w) },
    )
}

/// A reader that knows the opening as the writer does.
pub fn new_reader<P: Part>(writer: &mut ReplicaWriter<P>) -> Result<ReplicaReader<P>, AllocError>
    ensures reader { IfOk result (λ r.
        ((view r.place).openings ≡ (view writer.old.desk.place).openings)
        × ((view r.place).read ≡ [])) }
    ensures same { (writer.new.desk.shown ≡ writer.old.desk.shown)
        × (writer.new.log ≡ writer.old.log) × (writer.new.behind ≡ writer.old.behind)
        × (view writer.new.desk.place ≡ view writer.old.desk.place) }
{
    let mut reader = writer.factory().reader()?;
    reader.learn::<ShareOpening>(writer.tell::<ShareOpening>());
    Ok(reader)
}

/// Queues all waiting parts as one change. They go on waiting where memory is refused.
pub fn queue_waiting<P: Part>(
    alloc: Global,
    writer: &mut ReplicaWriter<P>,
    waiting: &mut Vec<Arc<P>>,
    end: &LogEnd<P>,
) -> Result<(), NoMemory>
    requires { IsReady P.MOST (content_of P.items writer.old.desk.shown.value)
        (content_after P.items writer.old.desk.shown.value
        (drop writer.old.behind writer.old.log.items))
        (map (λ a. P.items (arc_value a)) waiting.old.items) end.now.token.log end.now.token.book }
    ensures ready { IsReady P.MOST (content_of P.items writer.new.desk.shown.value)
        (content_after P.items writer.new.desk.shown.value
        (drop writer.new.behind writer.new.log.items))
        (map (λ a. P.items (arc_value a)) waiting.new.items) end.now.token.log end.now.token.book }
    ensures desk { writer.new.desk ≡ writer.old.desk }
    ensures done { OnOk result (waiting.new.items ≡ []) }
    ensures parts { (content_after P.items writer.new.desk.shown.value
        (drop writer.new.behind writer.new.log.items)).parts
        ++ map (λ a. P.items (arc_value a)) waiting.new.items
        ≡ (content_after P.items writer.old.desk.shown.value
        (drop writer.old.behind writer.old.log.items)).parts
        ++ map (λ a. P.items (arc_value a)) waiting.old.items }
    ensures pending { (is_nonempty (drop writer.new.behind writer.new.log.items)
        || is_nonempty waiting.new.items)
        ≡ (is_nonempty (drop writer.old.behind writer.old.log.items)
        || is_nonempty waiting.old.items) }
{
    if waiting.is_empty() {
        return Ok(());
    }
    let change = Change::Append(
        replace(waiting, Vec::new(alloc)),
        end.count(),
        end.token.again(),
    );
    match writer.append(change) {
        Ok(()) => Ok(()),
        Err(Change::Append(parts, _, _token)) => {
            *waiting = parts;
            Err(NoMemory)
        }
        Err(Change::MergeLast(_part)) => unreachable!(),
    }
}
