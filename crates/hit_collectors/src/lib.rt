//! Boxes that tally hits: each has a name, a kind and the numbers of that kind.
//!
//! Stands on the hits of pattern_images. In `specs/` are the definitions of what a box tells, of what
//! hits add to it, and of the report line of a box. The layers above use that [`feed`] adds every
//! hit to every box, and that [`retire`] takes out the first box of a name.
#![tactic(auto)]

mod collector;
mod counter;
mod counting;
mod feeding;
mod kind;
mod laws;
mod report;
mod retiring;

pub use collector::Collector;
pub use counter::Counter;
pub use feeding::feed;
pub use kind::Kind;
pub use laws::{
    a_hit_raises_one_number, a_name_is_retired_in_one_way, hits_add_up_to_their_counts,
};
pub use retiring::{NoSuchName, retire};
