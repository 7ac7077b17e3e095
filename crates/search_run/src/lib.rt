//! The top call: a script, a folder of games and a sink become a status and the printed answers, with
//! imports that go on beside the statements.
//!
//! Stands on serial_run, import_segments, session_core, hit_collectors, import_work, query_script,
//! segment_store, version_publisher, node_position, kb_edges and kb_geometry. In `specs/` are a base
//! that is empty yet, and what a run with a base leaves; session_core defines lawful outputs.
//! The program uses that [`run`] writes a lawful output where it is done, and tells each other end by
//! its cause.
#![tactic(auto)]

mod base;
mod beside;
mod importer;
mod owned_publisher;
mod run_beside;
mod searchers;
mod top_call;

pub use base::Base;
pub use import_segments::{OpenName, Receipts, publish_import};
pub use serial_run::{Status, run_serial};
pub use top_call::run;
