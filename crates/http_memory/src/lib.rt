//! Devices in memory, for whoever embeds sessions, or tests what serves or reads over devices.
//!
//! An `Input` is a `Source` of given bytes, an `Output` a `Sink` that keeps what is written, and a `Connection` is one
//! of each. They give and accept pieces of a chosen length, and one call of each may fail. A `Shelf` is the `Packages`
//! of files in memory, and a `FixedClock` gives one time. Read `specs/Calls.antt` and `specs/Shelves.antt`.
//!
//! `scripts` has a port in memory: a `Script` is a `Port` of `http_ports`, whose connections are `Peer`s that send and
//! take bytes as they are written down.
//!
//! What the traits leave open is known here: the bytes that are left, those that were written, how many calls failed,
//! and what can be read of a file. An `Output` takes memory as it grows, and nothing else does. The crate knows no
//! session and no desk.

#![tactic(auto)]

mod calls;
mod clock;
mod connection;
mod failures;
mod input;
mod output;
mod scripts;
mod shelf;

pub use crate::clock::FixedClock;
pub use crate::connection::Connection;
pub use crate::failures::Failures;
pub use crate::input::Input;
pub use crate::output::Output;
pub use crate::scripts::{Finish, Peer, Script, Seat};
pub use crate::shelf::{Content, File, Shelf};
