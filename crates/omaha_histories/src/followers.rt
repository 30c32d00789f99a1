//! What keeps a server up to date with the other servers of its history.
//!
//! `follow` looks at the history again and again, until the server has ended. A look posts `follow` to the server's own
//! operator's listener until that replies that no further record is there: each such post adopts one record at most. Read
//! `specs/Looks.antt`.
//!
//! It knows no history, and no server but by its address. Contracts can't say how often it looks.

mod following;
mod looks;

pub use crate::followers::following::follow;
pub use crate::followers::looks::{Found, look};
