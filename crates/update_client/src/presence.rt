// Whether anybody listens at an address, and a wait for that.

ghost use Rattle.std.specs.Prelude.{◌≡◌};

use crate::timed::{Deadline, connect, connect_path};
use std::io::ErrorKind;
use std::net::{Net, TcpListener, TcpStream};
use std::thread;
use std::time::{Clock, Duration};

// How many seconds a connection may take.
const SECONDS: u64 = 1;

// How many milliseconds a pause has.
const PAUSE: u64 = 200;

/// A wait of so many seconds, which has begun.
#[derive(Clone, Copy)]
pub struct Patience {
    /// How many seconds it has.
    pub seconds: u64,
    deadline: Option<Deadline>,
}

impl Patience {
    /// Begins a wait. Without a clock nothing is left of it.
    pub(crate) fn begin<R: Clock>(rt: &R, seconds: u64) -> Patience
        ensures { result.seconds ≡ seconds }
    {
        let deadline = Deadline::after(rt, Duration::from_secs(seconds.max(1))).ok();
        Patience { seconds, deadline }
    }

    // The time that is left, if any is.
    fn left<R: Clock>(&self, rt: &R) -> Option<Duration> {
        let deadline = self.deadline?;
        deadline.left(rt).ok()
    }

    /// Sleeps for a pause, or for less if less is left, and returns whether any time was left.
    pub(crate) fn pause<R: Clock>(&self, rt: &R) -> bool {
        match self.left(rt) {
            Some(left) => {
                thread::sleep(rt, left.min(Duration::from_millis(PAUSE)));
                true
            }
            None => false,
        }
    }
}

/// Whether a host rejects a connection.
pub(crate) fn is_host_gone<R: Net<Listener = TcpListener, Stream = TcpStream> + Clock>(
    rt: &R,
    address: &str,
) -> bool {
    let Ok(deadline) = Deadline::after(rt, Duration::from_secs(SECONDS)) else {
        return false;
    };
    match connect(rt, address, &deadline) {
        Ok(_) => false,
        Err(error) => error.kind() == ErrorKind::ConnectionRefused,
    }
}

/// Whether the socket of a path rejects a connection, or is gone.
pub(crate) fn is_path_gone<R: Net>(rt: &R, path: &str) -> bool {
    match connect_path(rt, path) {
        Ok(_) => false,
        Err(error) => {
            matches!(
                error.kind(),
                ErrorKind::ConnectionRefused | ErrorKind::NotFound
            )
        }
    }
}
