//! Requests and replies of the Omaha protocol 3.1, JSON form, and their bytes.
//!
//! A `Request` is what a client asks, a `Reply` what the server replies; both are plain records, which contracts
//! compare by content. `specs/RequestReading.antt` says which record the bytes of a request have, or their first fault,
//! and `specs/ReplyWriting.antt` which bytes a reply has. A reply is written by serde, and needs no tree of JSON
//! values. `laws` has whole requests and replies with their records.
//!
//! `client` has the other half: what an update client writes and reads.
//!
//! It does not decide the reply to a request, nor what a client does with one: `replies` and `update_client` do.

#![tactic(auto)]

pub mod client;
mod fault;
pub mod laws;
mod offer_writer;
mod reply;
mod reply_writer;
mod request;
mod request_reader;
mod sending;

pub use crate::client::{ReplyFault, read_reply, write_request};
pub use crate::fault::RequestFault;
pub use crate::reply::{AppReply, AppState, CheckReply, KnownApp, Offer, Part, Reply};
pub use crate::reply_writer::write_reply;
pub use crate::request::{AppAsk, Check, Request};
pub use crate::request_reader::read_request;
