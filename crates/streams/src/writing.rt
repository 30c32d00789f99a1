ghost use Rattle.std.specs.Prelude.{OnOk, OnErr, true};
ghost use Rattle.std.specs.Io.KnownBytes.{Appends};
ghost use Rattle.streams.specs.Streams.{Known};
ghost use Rattle.streams.specs.Writing.{AppendsPart, Breaks, IsWritten};

use std::io;
use std::io::{Error, ErrorKind, Write};

/// Writes whole.
pub trait WriteWhole {
    ghost output: { Self → Known };

    /// Writes all of the bytes.
    ///
    /// Fails if the writer does; a first part of the bytes, but not all of them, may be written.
    fn write_whole(&mut self, bytes: &[u8]) -> io::Result<()>
        ensures ok { OnOk result
            (Appends (output self.old).bytes (output self.new).bytes bytes.now) }
        ensures err { OnErr result (Breaks (output self.old) (output self.new) bytes.now) };
}

impl<W: Write> WriteWhole for W {
    ghost output = { λ writer. record { bytes = W.contents writer; failed = true } };

    fn write_whole(&mut self, bytes: &[u8]) -> io::Result<()> {
        put(self, bytes)
    }
}

/// Writes all of the bytes, if the writer doesn't fail, and ignores whether it did.
pub fn offer<W: WriteWhole>(writer: &mut W, bytes: &[u8])
    ensures { IsWritten (W.output writer.old) (W.output writer.new) bytes.now }
{
    let _ = writer.write_whole(bytes);
}

// rule: Writing whole
// Writes until all of the bytes are written.
fn put<W: Write>(writer: &mut W, bytes: &[u8]) -> io::Result<()>
    ensures ok { OnOk result (Appends (W.contents writer.old) (W.contents writer.new) bytes.now) }
    ensures err { OnErr result
        (AppendsPart (W.contents writer.old) (W.contents writer.new) bytes.now) }
{
    let mut taken = 0;
    for _ in 0..u64::MAX {
        if taken == bytes.len() {
            return Ok(());
        }
        match writer.write(&bytes[taken..]) {
            Ok(0) => return Err(Error::from(ErrorKind::WriteZero)),
            Ok(count) => taken += count,
            Err(error) if error.kind() == ErrorKind::Interrupted => {}
            Err(error) => return Err(error),
        }
    }
    if taken == bytes.len() {
        return Ok(());
    }
    Err(Error::from(ErrorKind::TimedOut))
}
