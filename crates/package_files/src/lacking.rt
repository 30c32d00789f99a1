ghost use Rattle.std.specs.Prelude.{List, ℕ, Option, Some};
ghost use Rattle.package_files.specs.Lacking.{lacking_string};

use percent_encoding::{CONTROLS, percent_encode};
use std::fmt;

/// What there is in place of the file of a package.
#[derive(Clone, Copy, Debug, Drop)]
pub enum Lack {
    /// There is no regular file of the name, or it can't be opened.
    Missing,
    /// The file has another size.
    Size {
        /// How many bytes are declared.
        declared: u64,
        /// How many bytes the file has.
        found: u64,
    },
}

/// A package whose file isn't there with the declared size.
#[derive(Clone, Copy)]
pub struct Lacking<'a> {
    /// The package's name.
    pub name: &'a str,
    /// What there is in its place.
    pub lack: Lack,
}

// rule: Line of a lacking package
/// Writes what there is and the name, as `missing app-2.0.crx` or `size app-2.0.crx 12 13`, without a line feed.
///
/// The first number is the declared size, the second that of the file. Control characters and bytes outside ASCII are
/// written as `%` and two hexadecimal digits.
impl fmt::Display for Lacking<'_> {
    ghost output = { λ lacking. Some (lacking_string lacking.name.now lacking.lack) };

    fn fmt<W: fmt::Write>(&self, f: &mut fmt::Formatter<W>) -> fmt::Result {
        let name = percent_encode(self.name.as_bytes(), CONTROLS);
        match self.lack {
            Lack::Missing => write!(f, "missing {name}"),
            Lack::Size { declared, found } => write!(f, "size {name} {declared} {found}"),
        }
    }
}

/// What has files of packages, whose sizes can be looked at.
pub trait PackageSizes {
    // what the size of a file may be, by its name
    ghost sizes: { Self → List ℕ → Option ℕ → Type 0 };

    /// Returns the size of the file of a package, or `None` if there is no regular one that can be opened.
    fn size_of(&self, name: &[u8]) -> Option<u64>
        ensures { sizes self.now name.now result };
}
