//! Tests of the real source, sink and folder, which no file of cases can say: they write and read files
//! of the system, and stand on a writer and a system of their own that fail.
//!
//! Stands on kb_edges alone. There is nothing in this crate but tests, so that kb_edges is proved once.
#![tactic(auto)]

#[cfg(test)]
mod adapters;
