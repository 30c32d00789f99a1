// The ports of a server that was served.

use access_logs::EndedSender;
use streams::Trace;

/// A port that was served to its end.
#[derive(Drop)]
pub struct ServedPort<P> {
    /// The port.
    pub port: P,
    /// For how many of its connections memory ran out, up to 2^64 - 1.
    pub lost: u64,
}

/// The ports of a server that was served to its end.
#[derive(Drop)]
pub struct ServedPorts<P> {
    /// The port of each worker, in order.
    pub clients: Vec<ServedPort<P>>,
    /// The operator's port, if there is an operator.
    pub operator: Option<ServedPort<P>>,
    /// What was sent to the log for each of them, in this order, if replies are logged; else nothing.
    pub log: Trace<EndedSender>,
}
