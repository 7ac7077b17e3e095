// A publisher that may be let go, as what a thread hands back has to be.
ghost use Rattle.std.specs.Prelude.{◌≡◌};

use segment_store::Segment;
use std::sync::Wait;
use version_publisher::Publisher;

// A publisher beside the runtime by which it is closed, since that may wait.
pub(crate) struct OwnedPublisher<R: Wait + Drop> {
    pub publisher: Publisher<Segment>,
    pub rt: R,
}

impl<R: Wait + Drop> Drop for OwnedPublisher<R> {
    fn drop(self) {
        let Self { publisher, rt } = self;
        publisher.close(&rt);
    }
}

impl<R: Wait + Drop> OwnedPublisher<R> {
    // Takes the publisher out.
    pub fn into_publisher(self) -> Publisher<Segment>
        ensures { result ≡ self.publisher }
    {
        let Self { publisher, rt: _rt } = self;
        publisher
    }
}
