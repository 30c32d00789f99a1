// The system's listeners: those of an address, and those of a path, which only this machine can reach.

use std::io;
use std::net::{IpAddr, SocketAddr, TcpListener, TcpStream};
use std::os::fd::{AsRawFd, OwnedFd, RawFd};
use std::os::unix::net::UnixListener;

/// What connections are accepted from.
#[derive(Drop)]
pub enum Listener {
    /// The listener of an address.
    Tcp(TcpListener),
    /// The listener of a path.
    Unix(UnixListener),
}

impl Listener {
    /// Has accepting wait for a connection, or not.
    pub fn set_nonblocking(&self, on: bool) -> io::Result<()> {
        match self {
            Listener::Tcp(listener) => listener.set_nonblocking(on),
            Listener::Unix(listener) => listener.set_nonblocking(on),
        }
    }

    /// Opens the same listener once more.
    pub fn try_clone(&self) -> io::Result<Listener> {
        match self {
            Listener::Tcp(listener) => listener.try_clone().map(Listener::Tcp),
            Listener::Unix(listener) => listener.try_clone().map(Listener::Unix),
        }
    }

    pub(crate) fn raw_fd(&self) -> RawFd {
        match self {
            Listener::Tcp(listener) => listener.as_raw_fd(),
            Listener::Unix(listener) => listener.as_raw_fd(),
        }
    }

    // The address that it listens at, unless that is a path.
    pub(crate) fn local_address(&self) -> Option<SocketAddr> {
        match self {
            Listener::Tcp(listener) => listener.local_addr().ok(),
            Listener::Unix(_) => None,
        }
    }

    // Accepts a connection, and gives the address of its peer. That of a path has none; its stream is read, written and
    // shut down as one of an address, so it becomes one.
    pub(crate) fn accept(&self) -> io::Result<(TcpStream, Option<IpAddr>)> {
        match self {
            Listener::Tcp(listener) => {
                let (stream, peer) = listener.accept()?;
                Ok((stream, Some(peer.ip())))
            }
            Listener::Unix(listener) => {
                let (stream, _) = listener.accept()?;
                Ok((TcpStream::from(OwnedFd::from(stream)), None))
            }
        }
    }
}
