//! Versions of a growing base, shared by one publisher and many searchers whose looks never wait.
//!
//! Stands on kb_geometry, on `left_right` (over `crossbeam_utils` and `atomic_table`) for the
//! published copies, and on `logbook` for the one log; it names `core` too. The layers above use
//! that a look gives the items of a list which begins with all that its searcher has seen or
//! learned, that of all such lists of one opening the shorter begins the longer, and that a publish
//! appends exactly the pending parts, at one step.
#![tactic(auto)]

mod handles;
mod log;
mod opening;
mod part;
mod publisher;
mod reading;
mod receipt;
mod replica;
mod searcher;
mod state;
mod version;

pub use opening::{OpenError, open};
pub use part::{Part, most_of};
pub use publisher::Publisher;
pub use receipt::Receipt;
pub use searcher::{LookError, Searcher};
pub use state::{Content, PublisherState, ReceiptState, SearcherState, VersionState};
pub use version::Version;
