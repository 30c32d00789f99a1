//! What has passed at a port, which contracts see, beside what the port keeps of each slot.
//!
//! A `Book` has a place for each slot of a `Port`: the stream of its connection, and whether that waits for its peer.
//! What has passed is a trace of moves, from which `specs/Books.antt` makes the traffic of each slot. A method records
//! one move. So a port over devices whose bytes no contract knows, as sockets, has exact traffic: what its calls said
//! that they received and sent.
//!
//! It reads and writes nothing, and takes memory only for its places.

mod book;
mod moves;
mod place;

pub use crate::books::book::Book;
pub use crate::books::moves::{Change, Move};
pub use crate::books::place::Place;
