//! The bytes of an HTTP connection: read into a window, and written whole; and what heads say.
//!
//! A `Source` gives bytes in pieces and a `Sink` takes them in pieces; each counts its failures. A `Window` keeps the
//! bytes that were read and not yet used: `read_head` finds a request's head in it, and `read_body` takes a body from
//! it. `send` writes bytes whole, and `send_reply` a reply's head and body, in one write if they fit a block. Read
//! `specs/Devices.antt`, `specs/Heads.antt`, `specs/Bodies.antt` and `specs/Sending.antt`.
//!
//! A `Watch` is shown the connections and their bytes, and changes none. A `WatchedSource` and a `WatchedSink` are the
//! source and the sink that they wrap, byte for byte; they show a watch what passes. `Unwatched` looks at nothing.
//!
//! `heads` has what the head of a request says of its message, how long the body is and whether the connection stays
//! open, and the head of a reply.
//!
//! Nothing here takes memory but `Window::new`. It does not say what is read or written.

#![tactic(auto)]

mod body;
mod device;
mod head;
mod heads;
mod reply;
mod sending;
mod sink;
mod source;
mod watch;
mod window;

pub use crate::body::read_body;
pub use crate::device::{Sink, Source};
pub use crate::head::{Head, MAX_FIELDS, read_head};
pub use crate::heads::{
    Allow, MAX_BODY, ReplyHead, Status, allow_field, framing, is_for_another, is_from_browser,
    last_field, package_name, path_of, wants_close,
};
pub use crate::reply::send_reply;
pub use crate::sending::send;
pub use crate::sink::WatchedSink;
pub use crate::source::WatchedSource;
pub use crate::watch::{Unwatched, Watch};
pub use crate::window::{MAX_HEAD, Window};
pub use values::Failed;
