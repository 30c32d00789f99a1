//! The mirrors of a profile: what their tables say, and which a profile may name.

ghost use Rattle.std.specs.Prelude.{◌≡◌, []};
ghost use Rattle.std.specs.List.{list_any};
ghost use Rattle.values.specs.Reading.{Reads};
ghost use Rattle.profile_toml.specs.Readers.{placed};
ghost use Rattle.profile_toml.specs.Mirrors.{invalid_mirror, first_invalid_after, valid_mirrors, is_invalid_after, is_named, mirror_of};

use crate::fault::ProfileFault;
use crate::tables::{BadEntry, TableKind, TableReader};
use catalogue::Mirror;
use values::{Items, ReadError};

const MAX_MIRRORS: usize = 4;

// rule: Mirror of a profile
#[tactic(auto, unfolding(crate::specs::Mirrors::mirror_of))]
fn read_mirror(table: &TableReader<'_>) -> Result<Mirror, ReadError<BadEntry>>
    ensures { Reads (λ mirror. mirror) result (mirror_of (placed table.now)) }
{
    table.check_keys(&["name", "codebase", "budget"])?;
    Ok(Mirror {
        name: table.string("name")?,
        codebase: table.string("codebase")?,
        budget: table.natural("budget")?,
    })
}

/// The tables `mirror` of a profile.
pub(crate) struct MirrorTable;

impl TableKind for MirrorTable {
    ghost use Rattle.profile_toml.specs.Mirrors.{mirror_of};

    type Record = Mirror;

    ghost reads = { λ kind. mirror_of };

    fn read(&self, table: &TableReader<'_>) -> Result<Mirror, ReadError<BadEntry>> {
        read_mirror(table)
    }
}

fn has_name(mirrors: &[Mirror], name: &str) -> bool
    ensures { result ≡ list_any (is_named name.now) mirrors.now }
{
    mirrors.iter().any(|mirror| name == mirror.name.as_str())
}

fn is_invalid(before: &[Mirror], mirror: &Mirror) -> bool
    ensures { result ≡ is_invalid_after before.now mirror.now }
{
    !mirror.is_valid() || has_name(before, mirror.name.as_str())
}

fn find_invalid(mirrors: &[Mirror]) -> Option<usize>
    ensures { result ≡ first_invalid_after [] mirrors.now }
{
    for (index, mirror) in mirrors.iter().enumerate() {
        if is_invalid(&mirrors[..index], mirror) {
            return Some(index);
        }
    }
    None
}

fn invalid_index(mirrors: &[Mirror]) -> Option<usize>
    ensures { result ≡ invalid_mirror mirrors.now }
{
    if mirrors.is_empty() {
        return Some(0);
    }
    if mirrors.len() > MAX_MIRRORS {
        return Some(MAX_MIRRORS);
    }
    find_invalid(mirrors)
}

// rule: Mirrors of a profile
/// Returns the mirrors, or `BadMirror` if a profile may not name them.
pub(crate) fn check_mirrors(
    mirrors: Items<Mirror>,
) -> Result<Items<Mirror>, ReadError<ProfileFault>>
    ensures { Reads (λ good. good) result (valid_mirrors mirrors) }
{
    match invalid_index(mirrors.as_slice()) {
        None => Ok(mirrors),
        Some(index) => Err(ReadError::Fault(ProfileFault::BadMirror(index))),
    }
}
