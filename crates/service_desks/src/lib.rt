//! The desks of a service that publishes: a worker's, which replies to update checks, and the operator's, which
//! publishes scripts, raises budgets and dumps the catalogue.
//!
//! `find_package` finds what a catalogue declares of a package. A `Worker` is the `Desk` of `http_desks` that enters
//! the published edition for each request, and replies from that edition alone, by `reply_to` of `replies`: read
//! `specs/Entries.antt` and `specs/Workers.antt`. An `Operator` is the desk that borrows the press and the budgets, and
//! adopts what other servers published of the same history: read `specs/Scripts.antt`, `specs/Raises.antt`,
//! `specs/Following.antt` and `specs/Operators.antt`.
//!
//! `services` makes the service of a profile: an edition, and the mirrors of its packages.
//!
//! It opens no press and no books, reads no stream and starts no session.

#![tactic(auto)]

mod answering;
mod attempt;
mod dumps;
mod following;
mod held_view;
mod kept_tables;
mod lines;
mod operator;
mod packages;
mod raises;
mod replying;
mod scripts;
mod services;
mod worker;

pub use crate::held_view::HeldView;
pub use crate::operator::Operator;
pub use crate::packages::find_package;
pub use crate::raises::replay_raise;
pub use crate::services::{
    KeptService, Mirrors, Service, builtin_service, make_service, names_of, totals_string,
};
pub use crate::worker::Worker;
