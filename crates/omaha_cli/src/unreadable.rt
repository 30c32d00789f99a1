// Arguments that could not be read.

ghost use Rattle.std.specs.IoError.{error_kind};
ghost use Rattle.std.specs.Prelude.{◌≡◌, ◌≢◌};
ghost use Rattle.omaha_cli.specs.Running.{rejection_of};
ghost use Rattle.streams.specs.Writing.{IsWritten};

use std::io;
use std::io::ErrorKind;
use streams::{WriteWhole, offer};

/// Reports arguments that could not be read, and returns the exit status.
///
/// That is 1 after the line `omaha: memory` if memory ran out, else 2 after a line that says that an
/// argument isn't UTF-8.
pub fn report_unreadable<F: WriteWhole>(error: &io::Error, errors: &mut F) -> u8
    ensures memory { error_kind error.now ≡ ErrorKind.OutOfMemory → result ≡ 1 }
    ensures arguments { error_kind error.now ≢ ErrorKind.OutOfMemory → result ≡ 2 }
    ensures told { IsWritten (F.output errors.old) (F.output errors.new) (rejection_of result) }
{
    if error.kind() == ErrorKind::OutOfMemory {
        offer(errors, b"omaha: memory\n");
        return 1;
    }
    offer(
        errors,
        b"error: an argument is not valid UTF-8\n\nFor more information, try '--help'.\n",
    );
    2
}
