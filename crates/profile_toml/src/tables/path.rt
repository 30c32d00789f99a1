//! The paths of keys, which are written only for an error.

ghost use Rattle.std.specs.Prelude.{◌≡◌, IfOk, string_bytes};
ghost use Rattle.profile_toml.specs.Paths.{invalid_element, invalid_key, path_of, prefix};

use std::alloc::{AllocError, Global};
use std::fmt;
use streams::Shown;
use values::Text;

/// The entry of a document that is invalid.
#[derive(Drop)]
pub struct BadEntry {
    /// Its path, as `app[0].release[2].size`: one line.
    pub path: Text,
}

/// Where a table is: the document itself, or an element of the list at a path.
#[derive(Clone, Copy)]
pub(crate) enum Place<'p> {
    Top,
    Element(&'p str, usize),
}

/// Writes what comes before the table's keys in their paths.
impl fmt::Display for Place<'_> {
    ghost use Rattle.std.specs.Prelude.{Some};
    ghost use Rattle.profile_toml.specs.Paths.{prefix};

    ghost output = { λ place. Some (prefix place) };

    fn fmt<W: fmt::Write>(&self, f: &mut fmt::Formatter<W>) -> fmt::Result {
        match self {
            Place::Top => Ok(()),
            Place::Element(list, index) => write!(f, "{list}[{index}]."),
        }
    }
}

// rule: Path of a key
/// Writes the path of a key of the table at a place.
pub(crate) fn write_path(alloc: Global, place: &Place<'_>, key: &str) -> Result<Text, AllocError>
    ensures { IfOk result (λ path. path ≡ path_of (prefix place.now) key.now) }
{
    let key = Shown { string: key };
    let path = format!(in alloc; "{place}{key}")?;
    Ok(Text::new(path))
}

/// Makes the error of a key of the table at a place.
pub(crate) fn invalid_key(
    alloc: Global,
    place: &Place<'_>,
    key: &str,
) -> Result<BadEntry, AllocError>
    ensures { IfOk result (λ entry. entry ≡ invalid_key (prefix place.now) key.now) }
{
    let path = write_path(alloc, place, key)?;
    Ok(BadEntry { path })
}

/// Makes the error of an element of the list at a path.
pub(crate) fn invalid_element(
    alloc: Global,
    list: &str,
    index: usize,
) -> Result<BadEntry, AllocError>
    ensures { IfOk result (λ entry. entry ≡ invalid_element list.now index) }
{
    let path = format!(in alloc; "{list}[{index}]")?;
    let path = Text::new(path);
    Ok(BadEntry { path })
}
