//! Editions: histories of accepted batches with their catalogues.
//!
//! Contracts see an `Edition` as its history, the list of its batches; `Edition::next` returns the
//! edition with one more batch, or the reason why there is none. Read `specs/Editions.antt`. It keeps the tables of
//! the tracks whose graphs the batch can't change, by `specs/Marks.antt`; `Edition::next_with` makes the others by
//! several threads. An `EditionBuilder` makes the edition of a whole history, with tables of the last content alone.
//!
//! It does not publish editions, and replies to no requests: crates above do.

#![tactic(auto)]

mod builder;
mod edition;
mod fault;
mod marks;

pub use crate::builder::EditionBuilder;
pub use crate::edition::Edition;
pub use crate::fault::NextError;
