//! The head of a reply as a client reads it, the requests that a client sends, and where it sends them.
//!
//! `read_start` finds the head of a reply at the front of bytes, and how long its body is. `post_request` and
//! `get_request` write requests, and `parse_address` reads the address of a download. Read
//! `specs/Lengths.antt`, `specs/Starts.antt`, `specs/Requests.antt` and `specs/Addresses.antt`.
//!
//! It does not read or write: its caller carries the bytes.

mod address;
mod fault;
mod length;
mod request;
mod start;

pub use crate::heads::address::{Address, parse_address};
pub use crate::heads::fault::LinkFault;
pub use crate::heads::length::{BodyLength, body_length};
pub use crate::heads::request::{Post, get_request, post_request};
pub use crate::heads::start::{MAX_FIELDS, MAX_HEAD, Start, read_start};
