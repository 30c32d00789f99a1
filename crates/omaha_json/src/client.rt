//! What an update client writes and reads: requests and replies of the Omaha protocol 3.1, JSON form.
//!
//! `write_request` writes a request that a server reads back as the same record; `read_reply` reads a server's reply.
//! `specs/RequestWriting.antt` says which bytes a request has, `specs/ReplyReading.antt` which record the bytes of a
//! reply have, or their first fault. `laws` says that each reply that a server writes is read back.
//!
//! It does not decide what a client does with a reply: `update_client` does.

mod fault;
pub mod laws;
mod reply_reader;
mod request_writer;

pub use crate::client::fault::ReplyFault;
pub use crate::client::reply_reader::read_reply;
pub use crate::client::request_writer::write_request;
