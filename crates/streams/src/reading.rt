ghost use Rattle.std.specs.Prelude.{◌≡◌, IfOk, IfErr, true};
ghost use Rattle.streams.specs.Streams.{Known};
ghost use Rattle.streams.specs.Reading.{Explains, IsWhole};

use std::alloc::Global;
use std::io::{ErrorKind, Read};

/// Why nothing was read whole.
#[derive(Drop)]
pub enum ReadFailure {
    /// The reader failed.
    Broken,
    /// The reader has more bytes than the maximum.
    TooLong,
    /// An allocation failed.
    Memory,
}

/// Reads to the end.
pub trait ReadWhole {
    ghost input: { Self → Known };

    /// Reads all bytes that are left, of which there may be `max`.
    ///
    /// Reads at most one byte more than that.
    fn read_whole(&mut self, alloc: Global, max: u32) -> Result<Vec<u8>, ReadFailure>
        ensures ok { IfOk result (λ bytes. IsWhole (input self.old) max bytes.items) }
        ensures err { IfErr result (Explains (input self.old) (input self.new) max) };
}

impl<R: Read> ReadWhole for R {
    ghost input = { λ reader. record { bytes = R.remaining reader; failed = true } };

    fn read_whole(&mut self, alloc: Global, max: u32) -> Result<Vec<u8>, ReadFailure> {
        read_bounded(self, alloc, max)
    }
}

// rule: Reading up to a maximum
/// Reads a reader to its end, which may have `max` bytes.
pub(crate) fn read_bounded<R: Read>(
    reader: &mut R,
    alloc: Global,
    max: u32,
) -> Result<Vec<u8>, ReadFailure>
    ensures ok { IfOk result (λ bytes.
        IsWhole (record { bytes = R.remaining reader.old; failed = true }) max bytes.items) }
    ensures err { IfErr result (Explains
        (record { bytes = R.remaining reader.old; failed = true })
        (record { bytes = R.remaining reader.new; failed = true }) max) }
{
    let mut bytes = Vec::new(alloc);
    let mut limited = reader.take(u64::from(max) + 1);
    match limited.read_to_end(&mut bytes) {
        Err(error) if error.kind() == ErrorKind::OutOfMemory => Err(ReadFailure::Memory),
        Err(_) => Err(ReadFailure::Broken),
        Ok(_) if bytes.len() > max as usize => Err(ReadFailure::TooLong),
        Ok(_) => Ok(bytes),
    }
}
