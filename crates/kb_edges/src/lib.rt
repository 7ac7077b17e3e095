//! The traits of the outside: a source of bytes, a sink for bytes and a folder of files, each with
//! a count of its faults, and their implementations in memory and over the system; and the gate that
//! an importer asks before it publishes. It stands on nothing but the standard library. The layer
//! above is generic over `Source`, `Sink`, `Folder` and `Gate`, and knows of the first three what
//! their clauses say: above all, that a failure is answered only where the count of faults rose in
//! that call.
#![tactic(auto)]

mod errors;
mod file_entry;
mod gate;
mod laws;
mod lookup;
mod memory_folder;
mod memory_sink;
mod memory_source;
mod plan;
mod real_folder;
mod real_sink;
mod real_source;
mod traits;

pub use errors::{FolderError, ReadFailed, SinkError};
pub use file_entry::FileEntry;
pub use gate::{Gate, OpenGate};
pub use laws::{each_path_has_a_listing, the_greatest_limit_is_268435456};
pub use lookup::sort_names;
pub use memory_folder::MemoryFolder;
pub use memory_sink::MemorySink;
pub use memory_source::MemorySource;
pub use real_folder::RealFolder;
pub use real_sink::RealSink;
pub use real_source::RealSource;
pub use traits::{Folder, MAX_LIMIT, Sink, Source};
