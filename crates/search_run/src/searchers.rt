// The searchers of a base: the session's own, and those of blocks.
ghost use Rattle.std.specs.Prelude.{◌≡◌, ◌≤◌, ◌⊎◌, [], All, IfOk, IfSome, List, length};
ghost use Rattle.import_work.specs.Log.{Segment};
ghost use Rattle.version_publisher.specs.Contents.{IsNewSearcher};
ghost use mathlib.Core.List.{IsPrefix};
ghost use Rattle.search_run.specs.Seen.{
  AreOfOpening,
  HaveSeen,
  HaveSeenOf,
  IsLookedAt,
  IsVersionOf,
};

use import_segments::{OpenName, Receipts};
use kb_geometry::NoMemory;
use segment_store::Segment;
use std::alloc::Global;
use std::sync::{Arc, Wait};
use version_publisher::{LookError, Publisher, Searcher, Version};

// The session's own searcher and those of blocks, all of J's opening, and the lock at which an
// importer leaves receipts for them.
#[derive(Drop)]
pub(crate) struct Searchers<J: OpenName> {
    pub own: Searcher<Segment>,
    pub block: Vec<Searcher<Segment>>,
    pub receipts: Arc<Receipts<J>>,
    ghost own_opened: { own.opening ≡ J.opening },
    ghost block_opened: { AreOfOpening J.opening block.items },
}

impl<J: OpenName> Searchers<J> {
    // The searchers of a base: the last one is the session's own.
    pub fn new(
        alloc: Global,
        publisher: &Publisher<Segment>,
        searchers: Vec<Searcher<Segment>>,
    ) -> Result<Searchers<J>, NoMemory>
        requires opening { publisher.now.opening ≡ J.opening }
        requires nine { length searchers.items ≡ 9 }
        requires new { All (IsNewSearcher publisher.now.opening) searchers.items }
        ensures { IfOk result (λ searchers. searchers.own.seen ≡ []) }
    {
        let receipts = Arc::new(alloc, Receipts::new(publisher)?)?;
        let mut block = searchers;
        let Some(own) = block.pop() else {
            unreachable!()
        };
        Ok(Searchers {
            own,
            block,
            receipts,
        })
    }

    // The version that the session's searcher finds, or the one that is held where it finds no later
    // one, or can't enter.
    pub fn look(
        &mut self,
        alloc: Global,
        held: Version<Segment>,
    ) -> Result<Version<Segment>, NoMemory>
        requires { IsVersionOf held self.old.own.seen }
        ensures version { IfOk result (λ version. IsVersionOf version self.new.own.seen) }
        ensures grows { IsPrefix self.old.own.seen self.new.own.seen }
        ensures block { self.new.block.items ≡ self.old.block.items }
    {
        match self.own.look(alloc) {
            Ok(version) => Ok(version),
            Err(LookError::NotEntered) => Ok(held),
            Err(LookError::NoMemory) => Err(NoMemory),
        }
    }

    // Waits for a version of this number or a greater one. None where the import has ended without
    // one.
    pub fn await_version<R: Wait>(
        &mut self,
        rt: &R,
        alloc: Global,
        number: u64,
    ) -> Result<Option<Version<Segment>>, NoMemory>
        ensures version { IfOk result (λ found. IfSome found (λ version.
            IsVersionOf version self.new.own.seen)) }
        ensures reached { IfOk result (λ found. IfSome found (λ version. number ≤ version.number)) }
        ensures grows { IsPrefix self.old.own.seen self.new.own.seen }
        ensures block { self.new.block.items ≡ self.old.block.items }
    {
        match self.receipts.await_number(rt, number) {
            Some(receipt) => {
                self.own.learn(receipt);
                Ok(Some(enter(rt, alloc, &mut self.own)?))
            }
            None => Ok(None),
        }
    }

    // A version for each of so many searches, which a searcher of its own finds, or the one that is
    // held where it can't enter.
    pub fn look_each(
        &mut self,
        alloc: Global,
        held: &Version<Segment>,
        count: usize,
    ) -> Result<Vec<Version<Segment>>, NoMemory>
        requires { IsVersionOf held.now self.old.own.seen }
        ensures count { IfOk result (λ versions. length versions.items ≡ count) }
        ensures found { IfOk result (λ versions.
            All (IsLookedAt self.old.own.seen self.new.block.items) versions.items) }
        ensures seen { (log : List Segment) → HaveSeenOf log self.new.block.items →
            HaveSeenOf log self.old.block.items }
        ensures own { self.new.own ≡ self.old.own }
    {
        look_each(alloc, &self.own, &mut self.block, held, count)
    }

    // The session's searcher learns what those of blocks have seen, and finds a version that holds
    // it. It may wait.
    pub fn catch_up<R: Wait>(&mut self, rt: &R, alloc: Global) -> Result<Version<Segment>, NoMemory>
        ensures version { IfOk result (λ version. IsVersionOf version self.new.own.seen) }
        ensures caught { IfOk result (λ _. HaveSeenOf self.new.own.seen self.new.block.items) }
        ensures grows { IsPrefix self.old.own.seen self.new.own.seen }
        ensures block { self.new.block.items ≡ self.old.block.items }
    {
        learn_each(&mut self.own, &self.block);
        Ok(enter(rt, alloc, &mut self.own)?)
    }

    // All searchers find the whole log of a publisher. It may wait.
    pub fn meet<R: Wait>(&mut self, rt: &R, publisher: &Publisher<Segment>)
        requires { publisher.now.opening ≡ J.opening }
        ensures seen { HaveSeen self.old.own self.old.block.items publisher.now.log }
        ensures own { self.new.own.seen ≡ publisher.now.log }
    {
        self.own.meet(rt, publisher);
        meet_each(rt, &mut self.block, publisher);
    }

    // The last version of a publisher. It may wait.
    pub fn last_version<R: Wait>(
        &mut self,
        rt: &R,
        alloc: Global,
        publisher: &Publisher<Segment>,
    ) -> Result<Version<Segment>, NoMemory>
        requires { publisher.now.opening ≡ J.opening }
        ensures version { IfOk result (λ version. IsVersionOf version publisher.now.log) }
        ensures own { IfOk result (λ _. self.new.own.seen ≡ publisher.now.log) }
    {
        for _ in rt.forever() {
            match self.own.look_with(alloc, publisher) {
                Ok(version) => return Ok(version),
                Err(LookError::NotEntered) => {}
                Err(LookError::NoMemory) => return Err(NoMemory),
            }
        }
        unreachable!()
    }
}

// Looks again and again until a searcher enters.
fn enter<R: Wait>(
    rt: &R,
    alloc: Global,
    searcher: &mut Searcher<Segment>,
) -> Result<Version<Segment>, NoMemory>
    ensures version { IfOk result (λ version. IsVersionOf version searcher.new.seen) }
    ensures learned { IfOk result (λ _. IsPrefix searcher.old.learned searcher.new.seen) }
    ensures grows { IsPrefix searcher.old.seen searcher.new.seen }
    ensures same { searcher.new.opening ≡ searcher.old.opening }
{
    for _ in rt.forever() {
        match searcher.look(alloc) {
            Ok(version) => return Ok(version),
            Err(LookError::NotEntered) => {}
            Err(LookError::NoMemory) => return Err(NoMemory),
        }
    }
    unreachable!()
}

// A version for each of so many searches, which the searcher at its place finds, or the one that is
// held.
fn look_each(
    alloc: Global,
    own: &Searcher<Segment>,
    block: &mut [Searcher<Segment>],
    held: &Version<Segment>,
    count: usize,
) -> Result<Vec<Version<Segment>>, NoMemory>
    requires opened { AreOfOpening own.now.opening block.old }
    requires held { IsVersionOf held.now own.now.seen }
    ensures count { IfOk result (λ versions. length versions.items ≡ count) }
    ensures found { IfOk result (λ versions.
        All (IsLookedAt own.now.seen block.new) versions.items) }
    ensures seen { (log : List Segment) → HaveSeenOf log block.new → HaveSeenOf log block.old }
    ensures same { AreOfOpening own.now.opening block.new }
{
    let mut versions = Vec::new(alloc);
    for place in 0..count {
        let version = look_at(alloc, own, block, place, held)?;
        versions.push(version)?;
    }
    Ok(versions)
}

// The version that the searcher at a place finds, or the one that is held where there is none.
fn look_at(
    alloc: Global,
    own: &Searcher<Segment>,
    block: &mut [Searcher<Segment>],
    place: usize,
    held: &Version<Segment>,
) -> Result<Version<Segment>, NoMemory>
    requires opened { AreOfOpening own.now.opening block.old }
    requires held { IsVersionOf held.now own.now.seen }
    ensures version { IfOk result (IsLookedAt own.now.seen block.new) }
    ensures seen { (log : List Segment) → HaveSeenOf log block.new → HaveSeenOf log block.old }
    ensures same { AreOfOpening own.now.opening block.new }
{
    if place >= block.len() {
        return held.copy(alloc);
    }
    look_later(alloc, own, &mut block[place], held)
}

// The version that a searcher of a block finds, which holds what the session's has seen, or the one
// that is held where it can't enter.
fn look_later(
    alloc: Global,
    own: &Searcher<Segment>,
    searcher: &mut Searcher<Segment>,
    held: &Version<Segment>,
) -> Result<Version<Segment>, NoMemory>
    requires opening { own.now.opening ≡ searcher.old.opening }
    requires held { IsVersionOf held.now own.now.seen }
    ensures version { IfOk result (λ version. IsVersionOf version own.now.seen
        ⊎ (IsVersionOf version searcher.new.seen × IsPrefix own.now.seen searcher.new.seen)) }
    ensures grows { IsPrefix searcher.old.seen searcher.new.seen }
    ensures same { searcher.new.opening ≡ searcher.old.opening }
{
    searcher.learn(own.seen());
    match searcher.look(alloc) {
        Ok(version) => Ok(version),
        Err(LookError::NotEntered) => held.copy(alloc),
        Err(LookError::NoMemory) => Err(NoMemory),
    }
}

// A searcher learns what each of these has seen.
fn learn_each(own: &mut Searcher<Segment>, block: &[Searcher<Segment>])
    requires { AreOfOpening own.old.opening block.now }
    ensures learned { HaveSeenOf own.new.learned block.now }
    ensures seen { own.new.seen ≡ own.old.seen }
    ensures opening { own.new.opening ≡ own.old.opening }
{
    for searcher in block {
        own.learn(searcher.seen());
    }
}

// Each of these searchers finds the whole log of a publisher. It may wait.
fn meet_each<R: Wait>(rt: &R, searchers: &mut [Searcher<Segment>], publisher: &Publisher<Segment>)
    requires { AreOfOpening publisher.now.opening searchers.old }
    ensures seen { HaveSeenOf publisher.now.log searchers.old }
    ensures same { AreOfOpening publisher.now.opening searchers.new }
{
    for i in 0..searchers.len() {
        searchers[i].meet(rt, publisher);
    }
}
