//! The reply to one input.
//!
//! `answer` turns the bytes of one request into those of the reply, over books of the mirrors' budgets that are opened
//! for it: read `specs/Answering.antt`. `respond` is the command `once`, which reads a profile from its file and a request
//! from a reader, and writes a reply: read `specs/Once.antt`.
//!
//! It serves no connection.

mod answering;
mod error;
mod once;

pub use crate::once::answering::answer;
pub use crate::once::error::AnswerError;
pub use crate::once::once::respond;
