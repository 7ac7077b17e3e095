// What an importer leaves for the searches beside it: its last receipt, under a lock.
ghost use Rattle.std.specs.Prelude.{◌≡◌, ◌≤◌, ◌↔◌, IfNone, IfSome, IsTrue, length};
ghost use Rattle.std.specs.Option.{ForSome};
ghost use Rattle.import_segments.specs.Awaited.{IsAwaited};

use kb_geometry::NoMemory;
use segment_store::Segment;
use std::marker::{Brand, PhantomData};
use std::sync::{Condvar, Mutex, Wait};
use version_publisher::{Publisher, Receipt};

/// Names one opening of a publisher and its searchers, by three numbers that contracts alone see.
pub trait OpenName {
    ghost use Rattle.version_publisher.specs.Contents.{BookName};

    ghost opening: { BookName };
}

// A function that is generic over the name is called at this type; the proof of the call says which
// opening it names.
impl OpenName for Brand {
    ghost opening = { (0, 0, 0) };
}

// The receipt of the last version that an importer published and nobody took out, and whether its
// import has ended.
#[derive(Drop)]
struct Left<J: OpenName> {
    receipt: Option<Receipt<Segment>>,
    ended: bool,
    of: PhantomData<J>,
    ghost named: { ForSome receipt (λ r. r.opening ≡ J.opening) },
}

impl<J: OpenName> Left<J> {
    fn nothing() -> Left<J> {
        Left {
            receipt: None,
            ended: false,
            of: PhantomData,
        }
    }

    // An import starts.
    fn start(&mut self) {
        self.receipt = None;
        self.ended = false;
    }

    // A receipt in the place of an earlier one.
    fn leave(&mut self, receipt: Receipt<Segment>)
        requires { receipt.opening ≡ J.opening }
    {
        self.receipt = Some(receipt);
    }

    // The import has ended.
    fn end(&mut self) {
        self.ended = true;
    }

    // Whether a receipt of this number or a greater one is still to come.
    fn is_awaited(&self, number: u64) -> bool
        ensures { IsTrue result ↔ IsAwaited number self.now.receipt self.now.ended }
    {
        if self.ended {
            return false;
        }
        match &self.receipt {
            Some(receipt) => receipt.number() < number,
            None => true,
        }
    }

    // Takes the receipt out, which is no longer awaited. None only where the import has ended; one of
    // a lower number is let go then.
    fn take(&mut self, number: u64) -> Option<Receipt<Segment>>
        requires { ¬ IsAwaited number self.old.receipt self.old.ended }
        ensures receipt { IfSome result (λ r. (r.opening ≡ J.opening)
            × (number ≤ length r.log)) }
        ensures none { IfNone result (IsTrue self.old.ended) }
    {
        match self.receipt.take() {
            Some(receipt) => {
                if receipt.number() < number {
                    return None;
                }
                Some(receipt)
            }
            None => None,
        }
    }
}

/// A lock over no receipt or the last one of J's opening that an importer left, beside a flag that
/// the import has ended. Each call but `new` may wait for the lock.
#[derive(Drop)]
pub struct Receipts<J: OpenName> {
    left: Mutex<Left<J>>,
    came: Condvar,
}

impl<J: OpenName> Receipts<J> {
    /// A lock over no receipt, and a clear flag. The publisher is one of J's opening.
    pub fn new(publisher: &Publisher<Segment>) -> Result<Receipts<J>, NoMemory>
        requires { publisher.now.opening ≡ J.opening }
    {
        // Contracts alone ask the publisher, for its opening.
        let _opening = publisher;
        Ok(Receipts {
            left: Mutex::new(Left::nothing()),
            came: Condvar::new(),
        })
    }

    /// An import starts: there is no receipt, and the flag is clear. It may wait.
    pub fn start<R: Wait>(&self, rt: &R) {
        self.left.lock(rt).start();
    }

    /// Leaves a receipt in the place of an earlier one. It may wait.
    pub fn leave<R: Wait>(&self, rt: &R, receipt: Receipt<Segment>)
        requires { receipt.opening ≡ J.opening }
    {
        self.left.lock(rt).leave(receipt);
        self.came.notify_all();
    }

    /// Sets the flag that the import has ended. It may wait.
    pub fn end<R: Wait>(&self, rt: &R) {
        self.left.lock(rt).end();
        self.came.notify_all();
    }

    /// Waits for a receipt of this number or a greater one, and takes it out. None where the import
    /// has ended without one; an earlier receipt is let go then. It may wait.
    pub fn await_number<R: Wait>(&self, rt: &R, number: u64) -> Option<Receipt<Segment>>
        ensures { IfSome result (λ r. (r.opening ≡ J.opening) × (number ≤ length r.log)) }
    {
        let mut left = self
            .came
            .wait_while(rt, self.left.lock(rt), |left| left.is_awaited(number));
        left.take(number)
    }
}
