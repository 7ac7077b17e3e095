//! The audit of a record: whether what a run is said to have written is a lawful output of a script over a
//! folder, and else where it departs from the lawful output that it calls for.
//!
//! Stands on serial_run, session_core, hit_collectors, import_work, search_engine, query_script,
//! segment_store, version_publisher, game_tree, kb_edges and kb_geometry. In `specs/` are what a record
//! shows of the course of its run, its guided output, and the verdict; session_core defines lawful outputs.
//! The program uses that [`audit`] says of a record what is so, tells each other end by its cause, and never
//! waits.
#![tactic(auto)]

mod asked;
mod auditing;
mod base;
mod course;
mod importing;
mod laws;
mod made;
mod merging;
mod named;
mod numbers;
mod path_words;
mod searching;
mod statements;
mod status;
mod stop;
mod tasks;
mod verdict;
mod whole;

pub use asked::task;
pub use auditing::audit;
pub use laws::{
    a_guided_output_is_lawful, a_lawful_output_guides_itself, a_record_has_one_guided_output,
    a_record_has_one_verdict,
};
pub use status::AuditStatus;
pub use tasks::Task;
