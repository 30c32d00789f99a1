//! Replies to requests, from an edition.
//!
//! `plan` assigns the client of each app of a request and chooses a payload for it: the first one of a
//! chain of the least sum, by the table of the client's track: the edition's, or for a pinned client one that it
//! makes and keeps in the plan. `plan_with` makes only those that a cache doesn't have. `render` writes the reply by
//! the plan and what the mirrors granted. Read `specs/Clients.antt` for who asks, `specs/Plans.antt` for what is chosen
//! and `specs/Replies.antt` for the reply.
//!
//! `reply_to` does all of it. It asks a `Till` of `mirror_ledger` for each payload that the reply offers, and offers
//! nothing that no mirror granted: read `specs/Asking.antt` and `specs/Answering.antt`. A counter is shown what each
//! update check came to: read `specs/Counting.antt`.
//!
//! It grants no bytes itself. A client's track is that of `cohorts`, what is permitted on it that of `payload_graph`,
//! and a reply's bytes those of `omaha_json`.

#![tactic(auto)]

mod asked;
mod asking;
mod checks;
mod choices;
mod client;
mod counting;
mod pinned;
mod planning;
mod rendering;
mod update_checks;

pub use crate::asked::Asked;
pub use crate::choices::{Choice, Plan};
pub use crate::client::Assignment;
pub use crate::planning::{plan, plan_with};
pub use crate::rendering::render;
pub use crate::update_checks::reply_to;
