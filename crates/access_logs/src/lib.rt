//! The access log of a server: a line for each reply, in the combined form that web servers write.
//!
//! `LoggedPort` is a port over another one of `http_ports`, whose replies it logs. A reply is what is sent from one
//! timestamp at which a message may begin up to the next one, or to the connection's end. Once it is done, its line is
//! sent to the log's writer by a `LineSender`, or counted as lost: read `specs/Replies.antt`, `specs/Entries.antt` and
//! `specs/Logs.antt`. The `Places` of its slots are made before, so that it begins without memory.
//!
//! A line has the address, the time, the first line of the message, the status, how many bytes the body of the reply had,
//! the referrer and the program that asked. Every byte that is not printable ASCII is printed as `\x` and two digits, and
//! so are a quote and a backslash: read `specs/Lines.antt`. The log holds up no reply and rejects none: a line that can't
//! be written is lost, and so is one that memory is lacking for. The time of a line is tested and not proved.
//!
//! `queues` has the lines of a log on their way to a thread that writes them. A sender waits for nobody: a line goes
//! into its ring of bytes whole, or is counted as lost.
//!
//! `LastReply` says of a connection's last reply whether it has fewer bytes than its head says.

#![tactic(auto)]

mod cut;
mod entry;
mod kept;
mod lines;
mod logged_port;
mod message;
mod places;
mod port_log;
pub mod queues;
mod seen;
mod times;

pub use crate::cut::{CutReply, LastReply};
pub use crate::logged_port::LoggedPort;
pub use crate::places::Places;
pub use crate::queues::{
    EndedSender, LineSender, Log, LogWriter, Page, Signal, WriterThread, Writing, open_log,
};
pub use crate::seen::Seen;
