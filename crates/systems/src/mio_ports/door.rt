// Where the connections of a port come from.

use crate::mio_ports::listener::Listener;
use crate::mio_ports::port::LISTENER;
use crate::mio_ports::sign::EndSign;
use mio::net::TcpStream;
use mio::unix::SourceFd;
use mio::{Interest, Registry, Token};
use std::alloc::Global;
use std::io::ErrorKind;
use std::net::{IpAddr, SocketAddr};
use std::sync::Arc;

/// The listener of a port, which may be let go once the port is asked to end.
#[derive(Drop)]
pub(crate) struct Door<'a> {
    // none once it was let go
    listener: Option<Arc<Listener, Global>>,
    sign: &'a EndSign,
    // the port was asked to end, when it looked last
    pub(crate) is_ending: bool,
    // the listener may have a connection
    knocks: bool,
    // the system has said so when it was asked last
    has_knocked: bool,
    // the last connection that was accepted failed
    failed: bool,
}

impl<'a> Door<'a> {
    /// Makes the door of a listener that may have a connection.
    pub(crate) fn new(listener: Arc<Listener, Global>, sign: &'a EndSign) -> Door<'a> {
        Door {
            listener: Some(listener),
            sign,
            is_ending: false,
            knocks: true,
            has_knocked: false,
            failed: false,
        }
    }

    /// Returns the address that its connections come to, unless that is a path, or the listener was let go.
    pub(crate) fn local_address(&self) -> Option<SocketAddr> {
        let listener = self.listener.as_ref()?;
        listener.local_address()
    }

    /// Whether a connection may be accepted.
    pub(crate) fn is_open(&self) -> bool {
        self.knocks && !self.is_ending
    }

    /// Whether the listener has a connection, as the system said when it was asked last.
    pub(crate) fn has_knocked(&self) -> bool {
        self.has_knocked
    }

    /// Notes that the system is asked.
    pub(crate) fn listen(&mut self) {
        self.has_knocked = false;
    }

    /// Notes that the system says that the listener has a connection.
    pub(crate) fn knock(&mut self) {
        self.knocks = true;
        self.has_knocked = true;
    }

    /// Has the system report the listener anew, if it has a connection.
    pub(crate) fn ask(&mut self, registry: &Registry) {
        let Some(listener) = &self.listener else {
            return;
        };
        let fd = listener.raw_fd();
        let asked = registry.reregister(&mut SourceFd(&fd), Token(LISTENER), Interest::READABLE);
        self.knocks = asked.is_err();
        self.has_knocked = asked.is_err();
    }

    /// Has the listener looked at again, if it failed.
    pub(crate) fn retry(&mut self) {
        self.knocks |= self.failed;
    }

    /// Looks whether the port is asked to end. The listener is let go then, unless it stays bound.
    pub(crate) fn look(&mut self) {
        if !self.sign.is_set() {
            return;
        }
        self.is_ending = true;
        if self.sign.lets_go() {
            self.listener = None;
        }
    }

    /// Accepts a connection, if there is one.
    pub(crate) fn accept(&mut self) -> Option<(TcpStream, Option<IpAddr>)> {
        let listener = self.listener.as_ref()?;
        match listener.accept() {
            Ok((stream, peer)) => {
                stream.set_nonblocking(true).ok()?;
                // a connection to a path has nothing to delay
                let _ = stream.set_nodelay(true);
                Some((TcpStream::from_std(stream), peer))
            }
            Err(error) => {
                let kind = error.kind();
                // one that was aborted may be followed by others
                self.knocks = kind == ErrorKind::ConnectionAborted;
                self.failed = kind != ErrorKind::WouldBlock;
                None
            }
        }
    }
}
