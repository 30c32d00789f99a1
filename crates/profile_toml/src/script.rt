//! Scripts.

ghost use Rattle.values.specs.Reading.{Reads};
ghost use Rattle.profile_toml.specs.Readers.{placed};
ghost use Rattle.profile_toml.specs.Documents.{entries};
ghost use Rattle.profile_toml.specs.Reading.{script_of_bytes};
ghost use Rattle.profile_toml.specs.Scripts.{few_edits, script_of};

use crate::document::{Schema, parse, read_schema};
use crate::fault::ProfileFault;
use crate::script_edit::EditTable;
use crate::tables::{BadEntry, TableReader};
use catalogue::{Batch, Edit};
use std::alloc::Global;
use values::{Items, ReadError};

const MAX_EDITS: usize = 4096;

// rule: Number of a script's edits
fn check_count(edits: Items<Edit>) -> Result<Items<Edit>, ReadError<ProfileFault>>
    ensures { Reads (λ edits. edits) result (few_edits edits) }
{
    if edits.len() > MAX_EDITS {
        return Err(ReadError::Fault(ProfileFault::TooManyEdits));
    }
    Ok(edits)
}

// rule: Tables of a script
#[tactic(auto, unfolding(crate::specs::Scripts::script_of))]
fn read_tables(
    schema: Schema,
    document: &TableReader<'_>,
) -> Result<(u64, Items<Edit>), ReadError<BadEntry>>
    ensures { Reads (λ script. script) result (script_of schema (placed document.now)) }
{
    document.check_keys(&["schema", "base", "edit"])?;
    let base = document.natural("base")?;
    let edits = document.optional_list("edit")?;
    Ok((base, edits.read(&EditTable { schema })?))
}

fn read_entries(
    schema: Schema,
    document: &TableReader<'_>,
) -> Result<(u64, Items<Edit>), ReadError<ProfileFault>>
    ensures { Reads (λ script. script) result (entries (script_of schema (placed document.now))) }
{
    match read_tables(schema, document) {
        Ok(script) => Ok(script),
        Err(ReadError::Memory) => Err(ReadError::Memory),
        Err(ReadError::Fault(bad)) => Err(ReadError::Fault(ProfileFault::BadEntry(bad.path))),
    }
}

// rule: Faults of a script
/// Reads a script of schema 1 or 2: the number of the edition that it is written for, and its edits.
///
/// Returns the first fault in the order of `ProfileFault`. Tables are read from the top. An edit's
/// `do` is read before its other keys, of which unknown ones are reported first, the least in byte
/// order. There are at most 4096 edits. What the edits say is not checked.
#[tactic(auto, unfolding(crate::specs::Reading::script_of_bytes))]
pub fn read_script(alloc: Global, bytes: &[u8]) -> Result<(u64, Batch), ReadError<ProfileFault>>
    ensures { Reads (λ script. script) result (script_of_bytes bytes.now) }
{
    let document = parse(alloc, bytes)?;
    let document = TableReader::new(alloc, &document);
    let schema = read_schema(&document)?;
    let (base, edits) = read_entries(schema, &document)?;
    let edits = check_count(edits)?;
    Ok((base, Batch::new(edits.into_vec())))
}
