//! Sessions of HTTP as what is said on the connections of a port.
//!
//! `Talks` is the `Protocol` of `http_ports` whose connections are sessions: bytes come and are sent in parts of any
//! length, and each whole message gets its reply, by the desk and the packages of a site, at a time that the port gave
//! for its connection: read `specs/Timestamps.antt`. A connection that waits keeps the bytes of its unfinished message
//! and no other memory; a `WatchedTalks` also keeps what its watch has seen. One that sends a package keeps one block
//! of it, of 64 KiB: the next one is made once that is sent. Read `specs/Talks.antt`. `serve_port` serves all
//! connections of a port so, with a `Connections` to keep them in: read `specs/Ports.antt`.
//!
//! It accepts no connection, and has no limit of time: its port does.

mod at;
mod connections;
mod devices;
mod outcome;
mod replying;
mod sending;
mod talk;
mod talks;
mod watched;

pub use crate::talks::connections::{Connections, serve_port};
pub use crate::talks::talk::Talk;
pub use crate::talks::talks::Talks;
pub use crate::talks::watched::{Watched, WatchedTalks};
