//! Profiles.

ghost use Rattle.std.specs.Prelude.{◌≡◌};
ghost use Rattle.values.specs.Reading.{Reads};
ghost use Rattle.profile_toml.specs.Readers.{placed};
ghost use Rattle.profile_toml.specs.Documents.{entries};
ghost use Rattle.profile_toml.specs.Profiles.{profile_of};
ghost use Rattle.profile_toml.specs.Reading.{profile_of_bytes};

use crate::app::{AppEntry, AppTable, edits_of};
use crate::document::{Schema, parse, read_schema};
use crate::fault::ProfileFault;
use crate::mirror::{MirrorTable, check_mirrors};
use crate::tables::{BadEntry, TableReader};
use catalogue::{Batch, Mirror};
use std::alloc::Global;
use values::{Items, ReadError};

/// What a profile's tables say.
struct Profile {
    mirrors: Items<Mirror>,
    apps: Items<AppEntry>,
}

// Written out, so that no caller proves again how each part is dropped.
impl Drop for Profile {
    fn drop(self) {
        let Profile {
            mirrors: _,
            apps: _,
        } = self;
    }
}

impl Profile {
    fn into_parts(self) -> (Items<Mirror>, Items<AppEntry>)
        ensures mirrors { result.0 ≡ self.mirrors }
        ensures apps { result.1 ≡ self.apps }
    {
        let Profile { mirrors, apps } = self;
        (mirrors, apps)
    }
}

// rule: Tables of a profile
#[tactic(auto, unfolding(crate::specs::Profiles::profile_of))]
fn read_tables(schema: Schema, document: &TableReader<'_>) -> Result<Profile, ReadError<BadEntry>>
    ensures { Reads (λ profile. profile) result (profile_of schema (placed document.now)) }
{
    document.check_keys(&["schema", "mirror", "app"])?;
    let mirrors = document.list("mirror")?;
    let apps = document.optional_list("app")?;
    Ok(Profile {
        mirrors: mirrors.read(&MirrorTable)?,
        apps: apps.read(&AppTable { schema })?,
    })
}

fn read_entries(
    schema: Schema,
    document: &TableReader<'_>,
) -> Result<Profile, ReadError<ProfileFault>>
    ensures { Reads (λ profile. profile) result (entries (profile_of schema (placed document.now))) }
{
    match read_tables(schema, document) {
        Ok(profile) => Ok(profile),
        Err(ReadError::Memory) => Err(ReadError::Memory),
        Err(ReadError::Fault(bad)) => Err(ReadError::Fault(ProfileFault::BadEntry(bad.path))),
    }
}

// rule: Faults of a profile
/// Reads a profile of schema 1 or 2: the edits that make its catalogue, and its one to four mirrors.
///
/// Returns the first fault in the order of `ProfileFault`. Tables are read from the top: the
/// profile's own keys, the mirrors, then each app with its cohorts, its releases and its differentials. A table's
/// unknown keys are reported before its others, the least of them in byte order. TOML is what the
/// crate `toml` reads: version 1.1, integers of 64 bits, at most 80 levels. What the edits say is
/// not checked.
#[tactic(auto, unfolding(crate::specs::Reading::profile_of_bytes))]
pub fn read_profile(
    alloc: Global,
    bytes: &[u8],
) -> Result<(Batch, Vec<Mirror>), ReadError<ProfileFault>>
    ensures { Reads (λ profile. (profile.0, profile.1.items)) result (profile_of_bytes bytes.now) }
{
    let document = parse(alloc, bytes)?;
    let document = TableReader::new(alloc, &document);
    let schema = read_schema(&document)?;
    let (mirrors, apps) = read_entries(schema, &document)?.into_parts();
    let mirrors = check_mirrors(mirrors)?;
    let edits = edits_of(alloc, apps)?;
    Ok((Batch::new(edits.into_vec()), mirrors.into_vec()))
}
