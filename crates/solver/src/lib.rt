//! Finds the least sums of a graph: the certified table of its track.
//!
//! `solve` goes over the releases once, from the target down and then above it upward, since each
//! payload leads nearer the target. It keeps the best full package of the window beside the rows, so
//! that a release costs its differentials and one full package; where a floor ends that best package,
//! it costs the full packages of its window. `price_cert::check` ends it. Read `specs/Best.antt` of
//! `price_cert` for the best payload of a list.
//!
//! It does not say what a table means, which `price_cert` does.

#![tactic(auto)]

mod filling;
pub mod laws;
mod table;

pub use crate::table::solve;
