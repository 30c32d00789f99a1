//! Certificates: a table of prices as lines that anybody can check.
//!
//! `write_prices` writes a table with the names that its catalogue gives to releases. `read_prices` reads it back
//! against the graph of its track, or returns the first line that is wrong; `read_key` finds out which track that is. A
//! table has one certificate, by `laws`: each line is accepted in one spelling, and what is written is read back. Read
//! `specs/Strings.antt` for the bytes of a table, `specs/Forms.antt` for the forms of its lines and
//! `specs/Reading.antt` for the fault of a wrong one.
//!
//! It does not check prices: `price_cert` does.

#![tactic(auto)]

mod entry;
mod fault;
mod form;
mod heading;
mod key;
pub mod laws;
mod lines;
mod reader;
mod track;
mod writer;

pub use crate::fault::Fault;
pub use crate::key::read_key;
pub use crate::reader::read_prices;
pub use crate::writer::write_prices;
