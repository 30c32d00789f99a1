// A clock that has stopped, and a writer that keeps what it is given, or is full.

use http_memory::FixedClock;
use std::io;
use std::io::{ErrorKind, Write};

/// A clock that has stopped at 09:30:05 on 24 November 2026.
pub(crate) const STOPPED: FixedClock = FixedClock {
    seconds: 1_795_512_605,
};

/// A file on a disk that has room for so many bytes. After so many writes that failed it has room again.
#[derive(Drop)]
pub(crate) struct Paper {
    pub(crate) bytes: Vec<u8>,
    pub(crate) room: usize,
    pub(crate) fails: usize,
}

impl Write for Paper {
    fn write(&mut self, bytes: &[u8]) -> io::Result<usize> {
        if self.room == 0 && self.fails > 0 {
            self.fails -= 1;
            return Err(io::Error::from(ErrorKind::StorageFull));
        }
        let count = if self.room == 0 {
            bytes.len()
        } else {
            bytes.len().min(self.room)
        };
        self.bytes.extend_from_slice(&bytes[..count])?;
        self.room = self.room.saturating_sub(count);
        Ok(count)
    }

    fn flush(&mut self) -> io::Result<()> {
        Ok(())
    }
}
