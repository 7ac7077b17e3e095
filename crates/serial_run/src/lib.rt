//! A run of a script, one statement after another: a script, a folder of games and a sink become a
//! status and the printed answers.
//!
//! Stands on session_core, hit_collectors, import_segments, import_work, search_engine, query_script,
//! segment_store, version_publisher, node_position, sgf_reader, kb_edges, kb_geometry and the library
//! bstr. In `specs/` are the script that is too long, and one statement of a run by what is kept of
//! it; session_core defines lawful outputs. The layer above uses that [`run_serial`] writes
//! a lawful output where it is done and a prefix of one where it stops, and that [`RunState`] tells
//! the text of a statement, and leads from one statement to the next.
#![tactic(auto)]

mod block;
mod counts;
mod read;
mod run_state;
mod script;
mod serial;
mod statement_text;
mod statements;
mod status;
mod write;

pub use block::block_text;
pub use run_state::RunState;
pub use script::{NoStatements, read_statements};
pub use serial::run_serial;
pub use statement_text::version_text;
pub use statements::{Stopped, answer_alone, run_statements};
pub use status::Status;
pub use write::write_all;
