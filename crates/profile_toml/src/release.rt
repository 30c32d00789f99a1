//! A release of a profile: what its table says, and its edits.

ghost use Rattle.std.specs.Prelude.{◌≡◌, ◌++◌, IfOk, OnOk};
ghost use Rattle.values.specs.Reading.{Reads};
ghost use Rattle.profile_toml.specs.Fields.{known};
ghost use Rattle.profile_toml.specs.Readers.{placed};
ghost use Rattle.profile_toml.specs.Releases.{added_edits, added_to, audience_edits, floor_edits, package_in, release_edits, release_keys, release_of, stone_edits, withdrawn_edits};

use crate::document::Schema;
use crate::tables::{BadEntry, TableKind, TableReader};
use catalogue::{AddRelease, Edit, SetAudience, SetFloor, SetStone, SetWithdrawn};
use std::alloc::AllocError;
use values::{Items, ReadError, Text};

/// What is said of a release's version and its full package.
pub(crate) struct PackageEntry {
    /// The key `version`.
    pub version: Text,
    /// The key `name`.
    pub name: Text,
    /// The key `size`, in bytes.
    pub size: u64,
    /// The key `sha256`.
    pub sha256: Text,
}

// Written out, so that no caller proves again how each part is dropped.
impl Drop for PackageEntry {
    fn drop(self) {
        let PackageEntry {
            version: _,
            name: _,
            size: _,
            sha256: _,
        } = self;
    }
}

impl PackageEntry {
    /// Makes the edit that adds the release to an app.
    pub(crate) fn added_to(self, app: Text) -> AddRelease
        ensures { result ≡ added_to app self }
    {
        let PackageEntry {
            version,
            name,
            size,
            sha256,
        } = self;
        AddRelease {
            app,
            version,
            name,
            size,
            sha256,
        }
    }
}

/// A table `release`.
pub(crate) struct ReleaseEntry {
    /// The version and the full package.
    pub full: PackageEntry,
    /// The key `stone`, false if it is not given.
    pub stone: bool,
    /// The key `withdrawn`, false if it is not given.
    pub withdrawn: bool,
    /// The key `audience`, the names of cohorts, if it is given.
    pub audience: Option<Items<Text>>,
    /// The key `floor`, a version, if it is given.
    pub floor: Option<Text>,
}

// Written out, so that no caller proves again how each part is dropped.
impl Drop for ReleaseEntry {
    fn drop(self) {
        let ReleaseEntry {
            full: _,
            stone: _,
            withdrawn: _,
            audience: _,
            floor: _,
        } = self;
    }
}

impl ReleaseEntry {
    fn into_parts(self) -> (PackageEntry, Option<Items<Text>>, Option<Text>)
        ensures full { result.0 ≡ self.full }
        ensures audience { result.1 ≡ self.audience }
        ensures floor { result.2 ≡ self.floor }
    {
        let ReleaseEntry {
            full,
            stone: _,
            withdrawn: _,
            audience,
            floor,
        } = self;
        (full, audience, floor)
    }
}

/// Reads what a table says of a release's version and its full package.
#[tactic(auto, unfolding(crate::specs::Releases::package_in))]
pub(crate) fn read_package(table: &TableReader<'_>) -> Result<PackageEntry, ReadError<BadEntry>>
    ensures { Reads (λ full. full) result (package_in (placed table.now)) }
{
    Ok(PackageEntry {
        version: table.string("version")?,
        name: table.string("name")?,
        size: table.natural("size")?,
        sha256: table.string("sha256")?,
    })
}

// The keys of a release; the last is of schema 2 alone.
const KEYS: [&str; 8] = [
    "version",
    "name",
    "size",
    "sha256",
    "stone",
    "withdrawn",
    "audience",
    "floor",
];

fn check_release_keys(schema: Schema, table: &TableReader<'_>) -> Result<(), ReadError<BadEntry>>
    ensures { Reads (λ nothing. nothing) result (known (release_keys schema) (placed table.now)) }
{
    match schema {
        Schema::One => table.check_keys(&KEYS[..7]),
        Schema::Two => table.check_keys(&KEYS),
    }
}

// rule: Release of a profile
#[tactic(auto, unfolding(crate::specs::Releases::release_of))]
fn read_release(
    schema: Schema,
    table: &TableReader<'_>,
) -> Result<ReleaseEntry, ReadError<BadEntry>>
    ensures { Reads (λ release. release) result (release_of schema (placed table.now)) }
{
    check_release_keys(schema, table)?;
    Ok(ReleaseEntry {
        full: read_package(table)?,
        stone: table.optional_flag("stone")?.unwrap_or(false),
        withdrawn: table.optional_flag("withdrawn")?.unwrap_or(false),
        audience: table.optional_strings("audience")?,
        floor: table.optional_string("floor")?,
    })
}

/// The tables `release` of an app, in a profile of a schema.
#[derive(Clone, Copy)]
pub(crate) struct ReleaseTable {
    pub schema: Schema,
}

impl TableKind for ReleaseTable {
    ghost use Rattle.profile_toml.specs.Releases.{release_of};

    type Record = ReleaseEntry;

    ghost reads = { λ kind. release_of kind.schema };

    fn read(&self, table: &TableReader<'_>) -> Result<ReleaseEntry, ReadError<BadEntry>> {
        read_release(self.schema, table)
    }
}

fn push_stone(
    app: &Text,
    version: &Text,
    stone: bool,
    edits: &mut Items<Edit>,
) -> Result<(), AllocError>
    ensures { OnOk result (edits.new ≡ edits.old ++ stone_edits app.now version.now stone) }
{
    if !stone {
        return Ok(());
    }
    let edit = SetStone {
        app: app.clone()?,
        version: version.clone()?,
        on: true,
    };
    edits.push(Edit::SetStone(edit))
}

fn push_withdrawn(
    app: &Text,
    version: &Text,
    withdrawn: bool,
    edits: &mut Items<Edit>,
) -> Result<(), AllocError>
    ensures { OnOk result (edits.new ≡ edits.old ++ withdrawn_edits app.now version.now withdrawn) }
{
    if !withdrawn {
        return Ok(());
    }
    let edit = SetWithdrawn {
        app: app.clone()?,
        version: version.clone()?,
        on: true,
    };
    edits.push(Edit::SetWithdrawn(edit))
}

fn push_audience(
    app: &Text,
    version: &Text,
    audience: Option<Items<Text>>,
    edits: &mut Items<Edit>,
) -> Result<(), AllocError>
    ensures { OnOk result (edits.new ≡ edits.old ++ audience_edits app.now version.now audience) }
{
    let Some(names) = audience else {
        return Ok(());
    };
    let edit = SetAudience {
        app: app.clone()?,
        version: version.clone()?,
        cohorts: Some(names),
    };
    edits.push(Edit::SetAudience(edit))
}

fn push_floor(
    app: &Text,
    version: Text,
    floor: Option<Text>,
    edits: &mut Items<Edit>,
) -> Result<(), AllocError>
    ensures { OnOk result (edits.new ≡ edits.old ++ floor_edits app.now version floor) }
{
    let Some(floor) = floor else {
        return Ok(());
    };
    let edit = SetFloor {
        app: app.clone()?,
        version,
        floor,
    };
    edits.push(Edit::SetFloor(edit))
}

// Pushes the edit that adds a release, and returns its version.
fn push_package(app: &Text, full: PackageEntry, edits: &mut Items<Edit>) -> Result<Text, AllocError>
    ensures version { IfOk result (λ version. version ≡ full.version) }
    ensures edits { OnOk result (edits.new ≡ edits.old ++ added_edits app.now full) }
{
    let version = full.version.clone()?;
    let app = app.clone()?;
    edits.push(Edit::AddRelease(full.added_to(app)))?;
    Ok(version)
}

// rule: Edits of a release of a profile
/// Pushes the edits of a release.
pub(crate) fn push_release(
    app: &Text,
    release: ReleaseEntry,
    edits: &mut Items<Edit>,
) -> Result<(), AllocError>
    ensures { OnOk result (edits.new ≡ edits.old ++ release_edits app.now release) }
{
    let stone = release.stone;
    let withdrawn = release.withdrawn;
    let (full, audience, floor) = release.into_parts();
    let version = push_package(app, full, edits)?;
    push_stone(app, &version, stone, edits)?;
    push_withdrawn(app, &version, withdrawn, edits)?;
    push_audience(app, &version, audience, edits)?;
    push_floor(app, version, floor, edits)
}
