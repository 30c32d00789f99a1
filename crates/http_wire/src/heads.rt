//! What the head of a request says of its message, and the head of a reply.
//!
//! `framing` gives the length of the body, or the status that rejects the message; `wants_close`
//! whether the connection ends after the reply; `is_from_browser` whether a browser sends the
//! message; `is_for_another` whether it is for another host; `path_of` and `package_name` what the
//! target names. A `ReplyHead` is what a reply's head says. Read `specs/Framing.antt`,
//! `specs/Closing.antt`, `specs/Browsers.antt`, `specs/Hosts.antt`, `specs/Targets.antt` and
//! `specs/Replies.antt`.
//!
//! It does not parse a head: that is the kit's `httparse`. It does not read or write.

mod body_length;
mod browser;
mod closing;
mod field;
mod host;
mod reply;
mod status;
mod target;

pub use crate::heads::body_length::{MAX_BODY, framing};
pub use crate::heads::browser::is_from_browser;
pub use crate::heads::closing::wants_close;
pub use crate::heads::host::is_for_another;
pub use crate::heads::reply::{Allow, ReplyHead, allow_field, last_field};
pub use crate::heads::status::Status;
pub use crate::heads::target::{package_name, path_of};
