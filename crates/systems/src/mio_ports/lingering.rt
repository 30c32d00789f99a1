// Connections that are closed, and whose peers may still send.

use mio::net::TcpStream;
use std::alloc::{AllocError, Global};
use std::io::{ErrorKind, Read};
use std::net::Shutdown;

// The most connections that linger.
const MAX_LINGERING: usize = 64;

// How many milliseconds a connection lingers.
const MILLISECONDS: u64 = 2000;

// How many times its input is dropped at a time, 4096 bytes each.
const READS: usize = 16;

// A connection whose replies are sent, since a millisecond.
#[derive(Drop)]
struct Lingering {
    stream: TcpStream,
    since: u64,
}

/// Connections that were closed while their peers might still send: their input is dropped, since a connection that is
/// closed with unread input may lose its last reply.
#[derive(Drop)]
pub(crate) struct LingeringList {
    streams: Vec<Lingering>,
}

// Drops what has come; whether there may be more later.
fn drop_input(mut stream: &TcpStream) -> bool {
    for _ in 0..READS {
        match stream.read(&mut [0; 4096]) {
            Ok(0) => return false,
            Ok(_) => {}
            Err(error) => return error.kind() == ErrorKind::WouldBlock,
        }
    }
    true
}

impl LingeringList {
    /// Makes an empty list.
    pub(crate) fn new(alloc: Global) -> Result<LingeringList, AllocError> {
        let streams = Vec::with_capacity(alloc, MAX_LINGERING)?;
        Ok(LingeringList { streams })
    }

    /// Whether no connection lingers.
    pub(crate) fn is_empty(&self) -> bool {
        self.streams.is_empty()
    }

    /// Announces the end of the replies, and keeps the connection for a while if its peer may still send.
    pub(crate) fn close(&mut self, stream: TcpStream, now: u64) {
        if stream.shutdown(Shutdown::Write).is_err() || !drop_input(&stream) {
            return;
        }
        if self.streams.len() < MAX_LINGERING {
            let _ = self.streams.push(Lingering { stream, since: now });
        }
    }

    /// Drops the input of each, and lets those go that have ended or lingered long enough.
    pub(crate) fn drop_inputs(&mut self, now: u64) {
        self.streams.retain(|lingering| {
            now.saturating_sub(lingering.since) < MILLISECONDS && drop_input(&lingering.stream)
        });
    }
}
