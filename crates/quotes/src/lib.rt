//! What certified prices say of a catalogue: least sums of bytes, and the first payloads of least chains.
//!
//! By the rules a certified price is the least sum of chains in a graph. Here the chains are those of the catalogue:
//! each payload is permitted on the track from where the one before it leads. `quote_from` reads what a table says of a
//! place: that it is the target, the first payload to it, or that no chain leads there. Read `specs/Sums.antt` for
//! least sums on a track, `specs/Quotes.antt` for quotes, `specs/Outside.antt` for those from outside of all releases,
//! and `laws` for what a table of prices says of them.
//!
//! It does not check tables, and does not find a client's place.

#![tactic(auto)]

pub mod laws;
mod outside;
mod quote;

pub use crate::quote::{Quote, quote_at, quote_from};
