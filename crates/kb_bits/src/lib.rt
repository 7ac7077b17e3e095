//! Sets of numbers below a bound, as fixed words. No call allocates.
//!
//! Stands on std alone. Clauses see a set as the list of its numbers, ascending. The layers above
//! use that each call is the set operation, said by the members of the sets, and that two sets with
//! the same members are equal.
#![tactic(auto)]

mod bit_board;

pub use bit_board::{BOUND, BitBoard, members_ascend, same_members_are_equal, the_bound_is_2704};
