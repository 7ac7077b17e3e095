//! The segments of an import become parts of versions: taken into one version, or published one after
//! another beside searches and merged.
//!
//! Stands on import_work, segment_store, version_publisher, kb_edges and kb_geometry. In `specs/` are
//! what a version has taken of an import, what an importer publishes, and how it merges parts. The
//! layer above uses that [`take_segments`] adds all segments of an import to a version, and that
//! [`publish_import`] lets a publisher's log grow by them, by the first of them where memory is
//! wanted, and leaves its parts merged.
#![tactic(auto)]

mod merging;
mod publish;
mod receipts;
mod taking;

pub use publish::publish_import;
pub use receipts::{OpenName, Receipts};
pub use taking::take_segments;
