//! Cohorts: which track of an app a client is on.
//!
//! A `Track` is the cohort that serves a client, its bucket of 1000, and what follows from them: the lane, the
//! target, and whether the client may be downgraded. `assign` returns a client's track in an app, and
//! `Session::assign` that of each client of one request, whose session is hashed at most once. `CohortText` reads
//! and prints the string by which a client names its cohort and its bucket; `TrackNames` are the names by which
//! an operator chooses a track. A `Pin` says which versions an administrator allows; `is_offered` and
//! `track_target` say to which releases it leads. Read `specs/Tracks.antt` for the assignment,
//! `specs/Offers.antt` for what is offered, `specs/CohortTexts.antt` for the strings, and `laws` for what holds
//! of them.
//!
//! It does not decide what a client is offered on its track: crates above do.

#![tactic(auto)]

mod cohort_text;
pub mod laws;
mod names;
mod offer;
mod pin;
mod session;
mod track;

pub use crate::cohort_text::CohortText;
pub use crate::names::TrackNames;
pub use crate::offer::{is_offered, track_target};
pub use crate::pin::Pin;
pub use crate::session::Session;
pub use crate::track::{Lane, Track, assign};
