//! Tests of what no file of cases can say: statements between two versions of an import that a gate
//! holds, searchers beside a publisher, and collectors of the tests' own.
//!
//! Stands on all libraries below the program. There is nothing in this crate but tests, so that each
//! library is proved once.
#![tactic(auto)]

#[cfg(test)]
mod beside;
#[cfg(test)]
mod between;
#[cfg(test)]
mod collectors;
#[cfg(test)]
mod files;
#[cfg(test)]
mod looks;
#[cfg(test)]
mod publishing;
#[cfg(test)]
mod refused;
