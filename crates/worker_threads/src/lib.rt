//! Jobs of threads that begin together or not at all.
//!
//! `run_together` gives each `Job` a thread of its own, lets all begin once each has one, does a `Job` of the caller's
//! own beside them, and returns what each came to; a job that did not begin is given back. A `Gate` is called as a thread
//! begins. `portion_of` divides a number among workers, whose portions add up to it. Read `specs/Jobs.antt` and `specs/Portions.antt`.
//!
//! It does not promise that a job ends.

#![tactic(auto)]

mod gate;
mod job;
pub mod laws;
mod portion;
mod start;
mod started;
mod together;

pub use crate::gate::{Free, Gate};
pub use crate::job::Job;
pub use crate::portion::portion_of;
pub use crate::together::run_together;
