//! The ports of a server: where it is served, how each of its ports is served by a desk, its log, what it says of itself, and
//! what it counts.
//!
//! A `Place` says where a service is served. `open_place` binds its addresses, opens `Ports` and prints `ready`: read
//! `specs/Opening.antt` and `specs/Starts.antt`. `serve_new` serves a `NewPort` by any desk: read `specs/Served.antt` and
//! `specs/Passages.antt`. If a log is asked for, the port is a `LoggedPort` of `access_logs`, and its lines go to what
//! `open_outlets` opened: read `specs/Logging.antt`. `Notes` has what the server says of itself, `Traffic` what its workers
//! counted, and `Ending` whether it was asked to end: read `specs/Notes.antt`.
//!
//! A `Setup` has all of these, over a `System` of `systems`. It knows no edition, no budget and no desk.

#![tactic(auto)]

mod ending;
mod error;
mod folders;
mod lacks;
mod logging;
mod new_port;
mod new_sender;
mod notes;
mod opening;
mod place;
mod ports;
mod setup;
mod starts;
mod terms;
mod traffic;
mod watches;

pub use crate::ending::Ending;
pub use crate::error::ServerError;
pub use crate::folders::SystemFolder;
pub use crate::lacks::note_edits;
pub use crate::logging::{
    Outlets, Senders, Writings, by_page, finish_writing, open_outlets, start_writing,
};
pub use crate::new_port::NewPort;
pub use crate::new_sender::NewSender;
pub use crate::notes::{Notes, note, note_reply};
pub use crate::opening::{Ports, open_place};
pub use crate::place::Place;
pub use crate::ports::{ServedPort, ServedPorts};
pub use crate::setup::{Served, Setup, seconds_now, serve_new};
pub use crate::starts::{bind_traffic, note_serving};
pub use crate::traffic::{ServedSoFar, Traffic};
