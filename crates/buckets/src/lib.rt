//! Buckets: which target each of a cohort's 1000 buckets has, and which clients a change of cohorts leaves without one.
//!
//! `parts` cuts the buckets into at most three `Span`s, in each of which all clients are on one lane before a change and on
//! one after it. `cut_off` returns those whose clients had a target and have none, `moves` those whose clients get another
//! target, and `width_of` counts the buckets of spans. `cuts_nobody_off` looks at all cohorts of an app, and at the clients
//! whom a hint leads from one to another. Read `specs/Buckets.antt` and `specs/Clients.antt` for the definitions, and `laws`
//! for what holds of them.
//!
//! It doesn't say which releases clients have, nor what they download.

#![tactic(auto)]

mod change;
mod guard;
pub mod laws;

pub use crate::change::{Span, cut_off, has_target, moves, parts, width_of};
pub use crate::guard::cuts_nobody_off;
