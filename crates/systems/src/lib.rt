//! What a server asks of the system: ports, a log and a folder of packages.
//!
//! A `System` opens ports and serves them. Its relations name addresses, folders and logs: read `specs/Edges.antt` and
//! `specs/NewPorts.antt`. `Sockets` is the real one, over the ports of `mio_ports`, which wait for no socket alone.
//!
//! It knows no service and no desk.

#![tactic(auto)]

mod mio_ports;
mod socket_files;
mod sockets;
mod system;

pub use crate::mio_ports::{EndSign, Listener, MioPort};
pub use crate::sockets::{EndSigns, LogFile, Sockets};
pub use crate::system::{OpenError, System};
