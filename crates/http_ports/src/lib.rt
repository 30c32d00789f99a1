//! A loop over many connections, of which it waits for none.
//!
//! A `Port` is one worker's side of the network: it accepts connections, each at one of its slots, and reports which of
//! them may go on. A `Protocol` is what is said on a connection. `run` serves all connections of a port by a desk of
//! `http_desks`, each as far as its bytes have come and its peer takes the replies: read `specs/Ports.antt`,
//! `specs/Speech.antt` and `specs/Loops.antt`. A `WatchEach` is shown what passes on each, by a protocol that says so.
//!
//! `books` keeps what has passed at a port, which contracts see: so a port over devices whose bytes no contract knows
//! has exact traffic.
//!
//! It knows no socket, no HTTP and no clock: a port says which connections are late, and at which time a protocol goes
//! on, and a protocol what bytes mean.

#![tactic(auto)]

mod books;
mod event;
mod last;
mod looping;
mod port;
mod protocol;
mod serving;
mod table;
mod terms;
mod timestamp;
mod watch;

pub use crate::books::{Book, Change, Move, Place};
pub use crate::event::{Event, Received, Sent};
pub use crate::last::Last;
pub use crate::looping::run;
pub use crate::port::Port;
pub use crate::protocol::{Next, Protocol};
pub use crate::terms::Terms;
pub use crate::timestamp::{Timestamp, trace_waiting};
pub use crate::watch::WatchEach;
