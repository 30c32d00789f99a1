//! Whole profiles.

ghost use Rattle.std.specs.Prelude.{◌≡◌, ◌<◌, ◌^◌, map, IfOk};
ghost use Rattle.std.specs.List.{AllByRecursion};
ghost use Rattle.profile_toml.specs.Laws.{AreMirrors};
ghost use Rattle.toml.specs.View.{table_view};
ghost use Rattle.profile_toml.specs.WrittenFields.{mirror_table, profile_table};
ghost use Rattle.profile_toml.specs.WrittenProfiles.{IsProfileFile, IsReadAs};

use crate::writing::app::write_apps;
use crate::writing::table::TableWriter;
use catalogue::{Catalogue, Mirror};
use std::alloc::{AllocError, Global};
use toml::Table;

const SCHEMA: u64 = 2;

// rule: Written mirror
fn write_mirror(alloc: Global, mirror: &Mirror) -> Result<Table, AllocError>
    requires { mirror.now.budget < 2 ^ 63 }
    ensures { IfOk result (λ table. table_view table ≡ mirror_table mirror.now) }
{
    let mut table = TableWriter::new(alloc);
    table.string("name", mirror.name.as_str())?;
    table.string("codebase", mirror.codebase.as_str())?;
    table.natural("budget", mirror.budget)?;
    Ok(table.into_table())
}

fn write_mirrors(alloc: Global, mirrors: &[Mirror]) -> Result<Vec<Table>, AllocError>
    requires { AllByRecursion (λ mirror. mirror.budget < 2 ^ 63) mirrors.now }
    ensures { IfOk result (λ tables. map table_view tables.items ≡ map mirror_table mirrors.now) }
{
    let mut tables = Vec::new(alloc);
    for mirror in mirrors {
        tables.push(write_mirror(alloc, mirror)?)?;
    }
    Ok(tables)
}

// rule: Written tables
fn write_tables(
    alloc: Global,
    catalogue: &Catalogue,
    mirrors: &[Mirror],
) -> Result<Table, AllocError>
    requires { AreMirrors mirrors.now }
    ensures { IfOk result (λ table. table_view table
        ≡ profile_table catalogue.now mirrors.now) }
{
    catalogue.validity();
    let mut table = TableWriter::new(alloc);
    table.natural("schema", SCHEMA)?;
    table.tables("mirror", write_mirrors(alloc, mirrors)?)?;
    table.tables("app", write_apps(alloc, catalogue.apps())?)?;
    Ok(table.into_table())
}

// rule: Bytes of a profile
// rule: Written profile
/// Writes a catalogue and its mirrors as a profile of schema 2.
///
/// A key has a line of its own, the keys of a table are in byte order, and values that reading assumes are
/// left out. Apps and cohorts are in the order of their addition, the default cohort first; releases
/// ascend by version, differentials by `from` and then by `to`. Out of memory is the only error.
pub fn write_profile(
    alloc: Global,
    catalogue: &Catalogue,
    mirrors: &[Mirror],
) -> Result<Vec<u8>, AllocError>
    requires { AreMirrors mirrors.now }
    ensures text { IfOk result (λ text. IsProfileFile catalogue.now mirrors.now text.items) }
    ensures reads_back { IfOk result (λ text. IsReadAs catalogue.now mirrors.now text.items) }
{
    catalogue.validity();
    catalogue::histories::contents();
    let table = write_tables(alloc, catalogue, mirrors)?;
    match toml::table_to_string(alloc, &table) {
        Ok(text) => Ok(text.into_bytes()),
        // The tables have no dates, so memory ran out.
        Err(_) => Err(AllocError),
    }
}
