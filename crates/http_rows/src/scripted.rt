// A reader and a writer whose calls come out as a script says, a letter a call.

ghost use Rattle.std.specs.Prelude.{◌≤◌, IfOk};

use std::io;
use std::io::{Error, ErrorKind, Read, Write};

/// Each call does what the next letter says: a digit is how many bytes it reads or writes, `i` an interruption, `m` a
/// failure since memory ran out, and any other letter another failure. After the script each call reads or writes nothing.
#[derive(Drop)]
pub(crate) struct Scripted<'a> {
    pub(crate) left: &'a [u8],
}

impl Scripted<'_> {
    fn next(&mut self, room: usize) -> io::Result<usize>
        ensures { IfOk result (λ count. count ≤ room) }
    {
        let (letter, left) = match self.left {
            [] => return Ok(0),
            [letter, left @ ..] => (*letter, left),
        };
        self.left = left;
        match letter {
            b'0'..=b'9' => Ok(((letter - b'0') as usize).min(room)),
            b'i' => Err(Error::from(ErrorKind::Interrupted)),
            b'm' => Err(Error::from(ErrorKind::OutOfMemory)),
            _ => Err(Error::from(ErrorKind::ConnectionReset)),
        }
    }
}

impl Read for Scripted<'_> {
    fn read(&mut self, into: &mut [u8]) -> io::Result<usize> {
        self.next(into.len())
    }
}

impl Write for Scripted<'_> {
    fn write(&mut self, bytes: &[u8]) -> io::Result<usize> {
        self.next(bytes.len())
    }

    fn flush(&mut self) -> io::Result<()> {
        Ok(())
    }
}
