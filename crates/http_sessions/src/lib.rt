//! Sessions: the bytes of a connection in, the replies out, however the bytes come in pieces.
//!
//! A `Session` is advanced message by message: `turn` reads one, replies and returns the session if the connection
//! stays open. `serve_at` is a loop over `turn`, and `serve` the same without a watch. `Buffers::foresee` finds the
//! next message in bytes that came, for a caller that replies to it in parts. Read `specs/Messages.antt`,
//! `specs/Stops.antt`, `specs/Readings.antt` and `specs/Sessions.antt`; `laws` says that a stream is cut in one way.
//!
//! `talks` has sessions as what is said on the connections of a port of `http_ports`, all of them at once: `Talks` is
//! the `Protocol`, and `serve_port` serves a port so.
//!
//! `Buffers` and `Session` take their memory when they are made, and no message takes any. The crate does not open
//! connections, and sets no limit of time.

#![tactic(auto)]

mod buffers;
mod ends;
mod foreseeing;
pub mod laws;
mod message;
mod serving;
mod session;
mod talks;
mod turning;

pub use crate::buffers::Buffers;
pub use crate::ends::{End, Fault, Served};
pub use crate::foreseeing::{Foreseen, Found};
pub use crate::serving::{serve, serve_at};
pub use crate::session::{MAX_MESSAGES, Session, Turn};
pub use crate::talks::{Connections, Talk, Talks, Watched, WatchedTalks, serve_port};
pub use http_desks::{Answer, Clock, Declared, Desk, DeskStatus, Off, Packages, Site};
pub use http_wire::{Sink, Source};
