// What a folder has under the name of a package.

ghost use Rattle.std.specs.IoError.{error_kind};
ghost use Rattle.std.specs.Prelude.{◌≡◌, Ok, is_err, true};
ghost use Rattle.http_devices.specs.declared.entry.Entry.TheVariants.{Missing, Unreadable};

use std::alloc::AllocError;
use std::io;
use std::io::ErrorKind;

/// What a folder has under the name of a package.
#[derive(Clone, Copy, Drop)]
pub enum Entry {
    /// A regular file of so many bytes.
    File(u64),
    /// Nothing.
    Missing,
    /// A symbolic link, a folder or another kind of file.
    NotRegular,
    /// A file that may not be opened, or that the system failed to open.
    Unreadable,
}

// rule: Opening a package
/// Returns what there is if a file can't be opened, by the system's error. Fails if memory ran out.
pub(crate) fn entry_of(error: &io::Error) -> Result<Entry, AllocError>
    ensures missing { error_kind error.now ≡ ErrorKind.NotFound → result ≡ Ok Missing }
    ensures memory { error_kind error.now ≡ ErrorKind.OutOfMemory → is_err result ≡ true }
    ensures unreadable { error_kind error.now ≡ ErrorKind.PermissionDenied → result ≡ Ok Unreadable }
{
    match error.kind() {
        ErrorKind::NotFound => Ok(Entry::Missing),
        ErrorKind::NotADirectory => Ok(Entry::Missing),
        ErrorKind::OutOfMemory => Err(AllocError),
        _ => Ok(Entry::Unreadable),
    }
}
