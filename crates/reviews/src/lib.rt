//! Reviews: which clients of a catalogue are stuck and why, and pictures of an app's releases.
//!
//! A `TrackReview` says of a track with a target where the clients at each release are, its `Outcome`: at the target,
//! before a chain of the least sum, or stuck for a `Reason`. `review_catalogue` makes one for each track. A reason is
//! the first of the rules, the `Cause`s, without which the release would have a chain. `review_later` makes the reviews
//! after a change, with copies of those that it keeps. Read `specs/Reviews.antt` for what a review says,
//! `specs/Reasons.antt` for reasons, `specs/Steps.antt` for the steps of chains and `specs/Lifts.antt` for tracks
//! without a rule; `specs/Routes.antt` has the ways by which a track without a rule is searched, and
//! `specs/Copies.antt` the copies.
//!
//! `pictures` draws the releases of an app with what its reviews say, as SVG and as Graphviz DOT. `markup` has strings
//! as XML and HTML have them. `specs/Names.antt` has what reasons, releases and cohorts are printed as.
//!
//! It reads no file, prints nothing, and decides no offer. It compares no two catalogues: `review_reports` does.

#![tactic(auto)]

mod cause;
mod largest;
mod later;
mod lifting;
mod markup;
mod names;
mod outcome;
mod pictures;
mod reasons;
mod review;
mod roads;
mod steps;

pub use crate::cause::{Cause, Reason};
pub use crate::largest::Largest;
pub use crate::later::{LaterReviews, Reviewed, review_later};
pub use crate::markup::{escaped, push_escaped};
pub use crate::names::{cohort_name, spelled_at};
pub use crate::outcome::{Outcome, is_stuck};
pub use crate::pictures::{Arrow, Goal, Node, Picture, View, picture_of, write_dot, write_svg};
pub use crate::review::{TrackReview, review_catalogue};
pub use crate::steps::release_to;
