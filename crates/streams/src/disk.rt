ghost use Rattle.std.specs.Prelude.{ℕ, List, None, IfOk, IfErr, true};
ghost use Rattle.streams.specs.Streams.{Known};
ghost use Rattle.streams.specs.Reading.{Explains, IsWhole};

use crate::reading::{ReadFailure, read_bounded};
use std::alloc::Global;
use std::io::ErrorKind;
use std::rt::Files;
use std::{fs, io};

/// Reads files.
pub trait Disk {
    ghost file_at: { Self → List ℕ → Known };

    /// Reads the regular file at a path whole, if it has at most `max` bytes.
    ///
    /// Follows symbolic links. Fails if it is a folder, a FIFO or another kind of file, and doesn't wait for one.
    fn read_file(&self, alloc: Global, path: &str, max: u32) -> Result<Vec<u8>, ReadFailure>
        ensures ok { IfOk result (λ bytes. IsWhole (file_at self.now path.now) max bytes.items) }
        ensures err { IfErr result
            (Explains (file_at self.now path.now) (file_at self.now path.now) max) };
}

// Opens the file at a path if it is a regular one; opening a FIFO would wait for a writer.
fn open_regular<R: Files>(rt: &R, path: &str) -> io::Result<Option<R::File>> {
    if !rt.metadata(path)?.is_file() {
        return Ok(None);
    }
    Ok(Some(fs::open(rt, path)?))
}

impl<R: Files> Disk for R {
    ghost file_at = { λ _ _. record { bytes = None; failed = true } };

    fn read_file(&self, alloc: Global, path: &str, max: u32) -> Result<Vec<u8>, ReadFailure> {
        match open_regular(self, path) {
            Ok(Some(mut file)) => read_bounded(&mut file, alloc, max),
            Ok(None) => Err(ReadFailure::Broken),
            Err(error) if error.kind() == ErrorKind::OutOfMemory => Err(ReadFailure::Memory),
            Err(_) => Err(ReadFailure::Broken),
        }
    }
}
