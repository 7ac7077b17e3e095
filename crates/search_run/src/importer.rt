// An import by a thread of its own: what the thread is given, and what it hands back.
ghost use Rattle.search_run.specs.Beside.{HasEnded, MayBegin};

use crate::owned_publisher::OwnedPublisher;
use import_segments::{OpenName, Receipts, publish_import};
use import_work::{Counts, Import, Report, Source};
use kb_edges::{Folder, Gate};
use kb_geometry::NoMemory;
use segment_store::Segment;
use std::alloc::Global;
use std::snapshot::Snapshot;
use std::sync::{Arc, Wait};
use std::thread::{Promise, Threads};
use version_publisher::{Publisher, Receipt};

// What an importer works with, and hands back when it is joined.
#[derive(Drop)]
pub(crate) struct ImporterState<R: Wait + Drop, F: Folder, G: Gate> {
    pub owned: OwnedPublisher<R>,
    pub folder: F,
    pub gate: G,
}

// What is to be imported: the source, so many of its files at a time, and the line of the report; and
// the games and nodes of the base before it.
#[derive(Drop)]
pub(crate) struct ImportJob {
    pub source: Source,
    pub line: u32,
    pub batch: u32,
    pub before: Counts,
}

// How an import ended.
#[derive(Drop)]
pub(crate) struct Ended<R: Wait + Drop, F: Folder, G: Gate> {
    pub importer: ImporterState<R, F, G>,
    pub report: Result<Report, NoMemory>,
}

// What a thread that imports promises: that the import ends as one by this job ends, which began
// with this log and this folder.
#[derive(Drop)]
pub(crate) struct Importing<F: Folder> {
    pub begun: Receipt<Segment>,
    pub folder: Snapshot<F>,
    pub job: Snapshot<ImportJob>,
}

impl<R: Wait + Drop, F: Folder, G: Gate> Promise<Ended<R, F, G>> for Importing<F> {
    ghost use Rattle.search_run.specs.Beside.{HasEnded};

    ghost kept_by = { λ p e. HasEnded (F.files p.folder.value) (F.faults p.folder.value)
        p.job.value p.begun.opening p.begun.log (F.files e.importer.folder)
        (F.faults e.importer.folder) e.importer.owned.publisher e.report };
}

// Does an import's job, and tells the lock of the receipts when that has ended. It may wait.
pub(crate) fn import<
    J: OpenName + Send + Sync,
    R: Threads + Wait + Drop + Sync,
    F: Folder,
    G: Gate,
>(
    alloc: Global,
    job: ImportJob,
    importer: ImporterState<R, F, G>,
    receipts: Arc<Receipts<J>>,
) -> Ended<R, F, G>
    requires { MayBegin J.opening importer.owned.publisher job }
    ensures { HasEnded (F.files importer.folder) (F.faults importer.folder) job
        importer.owned.publisher.opening importer.owned.publisher.log (F.files result.importer.folder)
        (F.faults result.importer.folder) result.importer.owned.publisher result.report }
{
    let ImporterState {
        owned,
        mut folder,
        gate,
    } = importer;
    let mut owned = owned;
    let report = publish_job(
        &owned.rt,
        alloc,
        &job,
        &mut folder,
        &mut owned.publisher,
        &gate,
        &receipts,
    );
    receipts.end(&owned.rt);
    Ended {
        importer: ImporterState {
            owned,
            folder,
            gate,
        },
        report,
    }
}

// Opens the import of a job, and publishes it.
fn publish_job<J: OpenName + Send + Sync, R: Threads + Wait + Sync, F: Folder, G: Gate>(
    rt: &R,
    alloc: Global,
    job: &ImportJob,
    folder: &mut F,
    publisher: &mut Publisher<Segment>,
    gate: &G,
    receipts: &Receipts<J>,
) -> Result<Report, NoMemory>
    requires { MayBegin J.opening publisher.old job.now }
    ensures { HasEnded (F.files folder.old) (F.faults folder.old) job.now publisher.old.opening
        publisher.old.log (F.files folder.new) (F.faults folder.new) publisher.new result }
{
    let number = publisher.number();
    let source = &job.source;
    let import = match Import::open_from(alloc, folder, source, job.line, job.before, number) {
        Ok(import) => import,
        Err(NoMemory) => return Err(NoMemory),
    };
    publish_import(
        rt, alloc, import, folder, publisher, gate, receipts, job.batch,
    )
}
