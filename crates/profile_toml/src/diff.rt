//! A differential of a profile: what its table says, and its edit.

ghost use Rattle.std.specs.Prelude.{◌≡◌, ◌++◌, OnOk};
ghost use Rattle.values.specs.Reading.{Reads};
ghost use Rattle.profile_toml.specs.Readers.{placed};
ghost use Rattle.profile_toml.specs.Diffs.{diff_added_to, diff_edits, diff_in, diff_of};

use crate::tables::{BadEntry, TableKind, TableReader};
use catalogue::{AddDiff, Edit};
use std::alloc::AllocError;
use values::{Items, ReadError, Text};

/// A table `diff`.
pub(crate) struct DiffEntry {
    /// The key `from`, the version that it starts at.
    pub from: Text,
    /// The key `to`, the version that it leads to.
    pub to: Text,
    /// The key `name`, that of its package.
    pub name: Text,
    /// The key `size`, in bytes.
    pub size: u64,
    /// The key `sha256`.
    pub sha256: Text,
}

// Written out, so that no caller proves again how each part is dropped.
impl Drop for DiffEntry {
    fn drop(self) {
        let DiffEntry {
            from: _,
            to: _,
            name: _,
            size: _,
            sha256: _,
        } = self;
    }
}

impl DiffEntry {
    /// Makes the edit that adds the differential to an app.
    pub(crate) fn added_to(self, app: Text) -> AddDiff
        ensures { result ≡ diff_added_to app self }
    {
        let DiffEntry {
            from,
            to,
            name,
            size,
            sha256,
        } = self;
        AddDiff {
            app,
            from,
            to,
            name,
            size,
            sha256,
        }
    }
}

/// Reads what a table says of a differential.
#[tactic(auto, unfolding(crate::specs::Diffs::diff_in))]
pub(crate) fn read_diff_package(table: &TableReader<'_>) -> Result<DiffEntry, ReadError<BadEntry>>
    ensures { Reads (λ diff. diff) result (diff_in (placed table.now)) }
{
    Ok(DiffEntry {
        from: table.string("from")?,
        to: table.string("to")?,
        name: table.string("name")?,
        size: table.natural("size")?,
        sha256: table.string("sha256")?,
    })
}

// rule: Differential of a profile
#[tactic(auto, unfolding(crate::specs::Diffs::diff_of))]
fn read_diff(table: &TableReader<'_>) -> Result<DiffEntry, ReadError<BadEntry>>
    ensures { Reads (λ diff. diff) result (diff_of (placed table.now)) }
{
    table.check_keys(&["from", "to", "name", "size", "sha256"])?;
    read_diff_package(table)
}

/// The tables `diff` of an app.
pub(crate) struct DiffTable;

impl TableKind for DiffTable {
    ghost use Rattle.profile_toml.specs.Diffs.{diff_of};

    type Record = DiffEntry;

    ghost reads = { λ kind. diff_of };

    fn read(&self, table: &TableReader<'_>) -> Result<DiffEntry, ReadError<BadEntry>> {
        read_diff(table)
    }
}

/// Pushes the edit of a differential.
pub(crate) fn push_diff(
    app: &Text,
    diff: DiffEntry,
    edits: &mut Items<Edit>,
) -> Result<(), AllocError>
    ensures { OnOk result (edits.new ≡ edits.old ++ diff_edits app.now diff) }
{
    let app = app.clone()?;
    edits.push(Edit::AddDiff(diff.added_to(app)))
}
