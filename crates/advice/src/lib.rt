//! What there is to say of a failure after its line: the value, its place, and what to do.
//!
//! It never fails, and changes nothing.

#![tactic(auto)]

mod addresses;
mod advising;
mod documents;
mod edits;
mod entries;
mod faults;
mod looks;
mod places;
mod replied;
mod sources;
mod spots;
mod tables;

pub use crate::advising::advice_on;
pub use crate::looks::{Aim, Looks, Seen};
pub use crate::replied::reply_advice;
