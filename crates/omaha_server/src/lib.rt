//! The server of a service: its update checks and its packages, over HTTP.
//!
//! `serve` publishes the service's edition, opens books of the mirrors' budgets, listens, and lets workers begin
//! together, each of which serves the connections of a port, beside the operator's; it prints each mirror's total at
//! the end, and gives the ports back, so that its caller knows what passed on them. Read `specs/Serving.antt`. How each
//! port is served and logged, and what the server says of itself, is in `server_ports`. The operator's desk also shows
//! pages: read `specs/Showing.antt`. What it asks of the system is a `System` of `systems`.
//!
//! It knows no command line.

#![tactic(auto)]

mod calls;
mod checking;
mod circumstances;
mod clients;
mod crew;
mod jobs;
mod operating;
mod running;
mod serving;
mod showing;
mod starts;

pub use crate::serving::serve;
pub use server_ports::{Place, ServedPort, ServedPorts, ServerError};
