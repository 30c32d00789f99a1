ghost use Rattle.std.specs.Prelude.{Some};
ghost use Rattle.package_files.specs.FindingStrings.{finding_string, mismatch_string};

use percent_encoding::{CONTROLS, percent_encode};
use std::fmt;
use values::Text;

/// How a file differs from what the catalogue declares of its package.
#[derive(Clone, Copy, Drop)]
pub enum Mismatch {
    /// There is no such file.
    Missing,
    /// It is a symbolic link, a folder or another kind of file.
    NotRegular,
    /// The file has another size.
    Size {
        /// How many bytes the file has.
        size: u64,
        /// How many bytes the catalogue declares.
        declared: u64,
    },
    /// The file has the declared size, and another SHA-256.
    Hash,
    /// The file couldn't be opened, or has the declared size and couldn't be read to its end.
    Unreadable,
}

/// Writes what differs in a few words.
impl fmt::Display for Mismatch {
    ghost output = { λ mismatch. Some (mismatch_string mismatch) };

    fn fmt<W: fmt::Write>(&self, f: &mut fmt::Formatter<W>) -> fmt::Result {
        match *self {
            Mismatch::Missing => f.write_str("missing"),
            Mismatch::NotRegular => f.write_str("not a regular file"),
            Mismatch::Size { size, declared } => write!(f, "size {size}, declared {declared}"),
            Mismatch::Hash => f.write_str("sha256 differs"),
            Mismatch::Unreadable => f.write_str("unreadable"),
        }
    }
}

/// A declared package whose file differs.
#[derive(Clone)]
pub struct Finding {
    /// The package's name.
    pub name: Text,
    /// How its file differs.
    pub mismatch: Mismatch,
}

// Written out, so that no caller proves again how each part is dropped.
impl Drop for Finding {
    fn drop(self) {
        let Finding {
            name: _,
            mismatch: _,
        } = self;
    }
}

// rule: Printed finding
/// Writes the name and what differs, as `app-2.0.crx: missing`, without a line feed.
///
/// Control characters and bytes outside ASCII, which no name of a catalogue has, are written as `%` and two
/// hexadecimal digits.
impl fmt::Display for Finding {
    ghost output = { λ finding. Some (finding_string finding) };

    fn fmt<W: fmt::Write>(&self, f: &mut fmt::Formatter<W>) -> fmt::Result {
        let name = percent_encode(self.name.as_str().as_bytes(), CONTROLS);
        let mismatch = self.mismatch;
        write!(f, "{name}: {mismatch}")
    }
}
