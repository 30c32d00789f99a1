//! What profiles and scripts have in common.

ghost use Rattle.std.specs.Option.{ok_or};
ghost use Rattle.values.specs.Reading.{Reads};
ghost use Rattle.toml.specs.View.{table_view};
ghost use Rattle.profile_toml.specs.Readers.{placed};
ghost use Rattle.profile_toml.specs.Documents.{document_of, schema_of};
ghost use Rattle.profile_toml.specs.declared.fault.ProfileFault.TheVariants.{NotToml};

use crate::fault::ProfileFault;
use crate::tables::TableReader;
use std::alloc::Global;
use toml::Table;
use values::ReadError;

/// Which keys and edits a document may have.
#[derive(Clone, Copy)]
pub(crate) enum Schema {
    /// Schema 1: no floors.
    One,
    /// Schema 2: releases have floors, and a script sets them.
    Two,
}

// rule: TOML of a profile
/// Parses a TOML document, or returns `NotToml`.
pub(crate) fn parse(alloc: Global, bytes: &[u8]) -> Result<Table, ReadError<ProfileFault>>
    ensures { Reads table_view result (ok_or (document_of bytes.now) NotToml) }
{
    match toml::table_from_slice(alloc, bytes) {
        Ok(table) => Ok(table),
        Err(error) => {
            if error.is_memory() {
                return Err(ReadError::Memory);
            }
            Err(ReadError::Fault(ProfileFault::NotToml))
        }
    }
}

// rule: Schema of a profile
/// Reads the document's schema, or returns `BadSchema`.
pub(crate) fn read_schema(document: &TableReader<'_>) -> Result<Schema, ReadError<ProfileFault>>
    ensures { Reads (λ schema. schema) result (schema_of (placed document.now)) }
{
    match document.natural("schema") {
        Ok(number) if number == 1 => Ok(Schema::One),
        Ok(number) if number == 2 => Ok(Schema::Two),
        Err(ReadError::Memory) => Err(ReadError::Memory),
        _ => Err(ReadError::Fault(ProfileFault::BadSchema)),
    }
}
