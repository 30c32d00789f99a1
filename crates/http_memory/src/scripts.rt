//! A port in memory, whose connections follow a script.
//!
//! A `Peer` sends its bytes in pieces and takes what is sent to it up to a limit; then it ends, fails or rests. A
//! `Script` is a `Port` of `http_ports` with a list of peers for each slot, which connect one after the other, and an
//! order in which slots have their turn. What contracts see of it is what its peers have sent and got: read
//! `specs/Peers.antt` and `specs/Seats.antt`.
//!
//! It is for whoever serves connections by `http_ports` and wants to see what each gets, without a socket. Serving
//! takes no memory of it.

mod moves;
mod peer;
mod script;
mod seat;
mod seating;

pub use crate::scripts::peer::{Finish, Peer};
pub use crate::scripts::script::Script;
pub use crate::scripts::seat::Seat;
