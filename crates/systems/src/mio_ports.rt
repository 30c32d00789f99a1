//! A port over sockets, none of which it waits for alone.
//!
//! `MioPort` is a `Port` of `http_ports` over a listener, which other ports may share, and the sockets that it accepted,
//! by the system's readiness (`mio`). Its traffic is what its reads and writes said that they received and sent: the
//! book of `http_ports` keeps it. It accepts so many connections in all, holds so many at once, and reports one as late
//! that waits for longer than its `Terms` say: read `specs/Polled.antt`. An `EndSign` asks it to end.
//!
//! That a socket carries what was read and written, that the system reports what is ready, and how time passes is known
//! to no contract.

mod door;
mod drained;
mod lingering;
mod listener;
mod passing;
mod port;
mod reporting;
mod sign;
mod times;
mod waiting;
mod waiting_list;

pub use crate::mio_ports::listener::Listener;
pub use crate::mio_ports::port::MioPort;
pub use crate::mio_ports::sign::EndSign;
