// Connections whose reads and writes have to end by a time.

ghost use Rattle.std.specs.Prelude.{◌<◌, IfOk};
ghost use Rattle.std.specs.Duration.{as_nanos};

use std::alloc::AllocError;
use std::io;
use std::io::{ErrorKind, Read, Write};
use std::net::{Net, SocketAddr, TcpListener, TcpStream, ToSocketAddrs};
use std::os::fd::OwnedFd;
use std::os::unix::net::UnixStream;
use std::time::{Clock, Duration, Instant};

/// The time by which something has to end.
#[derive(Clone, Copy)]
pub(crate) struct Deadline {
    begun: Instant,
    limit: Duration,
}

impl Deadline {
    /// So much time from now.
    pub(crate) fn after<R: Clock>(rt: &R, limit: Duration) -> io::Result<Deadline> {
        let begun = Instant::now(rt)?;
        Ok(Deadline { begun, limit })
    }

    /// The time that is left, which is never zero; it fails if there is none.
    pub(crate) fn left<R: Clock>(&self, rt: &R) -> io::Result<Duration>
        ensures { IfOk result (λ left. 0 < as_nanos left) }
    {
        let spent = self.begun.elapsed(rt)?;
        match self.limit.checked_sub(spent) {
            Some(left) if !left.is_zero() => Ok(left),
            _ => Err(io::Error::from(ErrorKind::TimedOut)),
        }
    }
}

/// A connection whose reads and writes end by a time: what is left of it is the limit of each.
pub(crate) struct Timed<'a, R: Clock> {
    rt: &'a R,
    stream: &'a TcpStream,
    deadline: Deadline,
}

impl<'a, R: Clock> Clone for Timed<'a, R> {
    ghost use Rattle.std.specs.Prelude.{◌≡◌, ⊤};

    ghost is_clone = { λ timed copy. copy ≡ timed };

    ghost is_infallible = { λ _. ⊤ };

    fn clone(&self) -> Result<Timed<'a, R>, AllocError> {
        Ok(*self)
    }
}

impl<'a, R: Clock> Copy for Timed<'a, R> {}

impl<'a, R: Clock> Timed<'a, R> {
    /// The connection with that time.
    pub(crate) fn new(rt: &'a R, stream: &'a TcpStream, deadline: Deadline) -> Timed<'a, R> {
        Timed {
            rt,
            stream,
            deadline,
        }
    }
}

impl<'a, R: Clock> Read for Timed<'a, R> {
    fn read(&mut self, buf: &mut [u8]) -> io::Result<usize> {
        let left = self.deadline.left(self.rt)?;
        self.stream.set_read_timeout(Some(left))?;
        let mut stream = self.stream;
        stream.read(buf)
    }
}

impl<'a, R: Clock> Write for Timed<'a, R> {
    fn write(&mut self, buf: &[u8]) -> io::Result<usize> {
        let left = self.deadline.left(self.rt)?;
        self.stream.set_write_timeout(Some(left))?;
        let mut stream = self.stream;
        stream.write(buf)
    }

    fn flush(&mut self) -> io::Result<()> {
        let mut stream = self.stream;
        stream.flush()
    }
}

// Connects to one address in time.
fn connect_one<R: Net<Listener = TcpListener, Stream = TcpStream> + Clock>(
    rt: &R,
    address: SocketAddr,
    deadline: &Deadline,
) -> io::Result<TcpStream> {
    let left = deadline.left(rt)?;
    let stream = TcpStream::connect_timeout(rt, &address, left)?;
    stream.set_nodelay(true)?;
    Ok(stream)
}

/// Connects in time to the first of some addresses that accepts, or has the last one's error.
pub(crate) fn connect<R: Net<Listener = TcpListener, Stream = TcpStream> + Clock, A: ToSocketAddrs>(
    rt: &R,
    addresses: A,
    deadline: &Deadline,
) -> io::Result<TcpStream> {
    let mut last = io::Error::from(ErrorKind::NotFound);
    for address in addresses.to_socket_addrs(rt)? {
        match connect_one(rt, address, deadline) {
            Ok(stream) => return Ok(stream),
            Err(error) => last = error,
        }
    }
    Err(last)
}

/// Connects to the socket at a path. The connection is held as one over TCP is: by its descriptor.
pub(crate) fn connect_path<R: Net>(rt: &R, path: &str) -> io::Result<TcpStream> {
    let stream = UnixStream::connect(rt, path)?;
    Ok(TcpStream::from(OwnedFd::from(stream)))
}
