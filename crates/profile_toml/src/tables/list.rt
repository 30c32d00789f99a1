//! Lists of tables.

ghost use Rattle.std.specs.Prelude.{◌≡◌};
ghost use Rattle.values.specs.Reading.{Reads};
ghost use Rattle.toml.specs.View.{items_view, view};
ghost use Rattle.profile_toml.specs.Lists.{all_tables, each, element};
ghost use Rattle.profile_toml.specs.Readers.{listed, placed};

use crate::tables::path::{BadEntry, Place, invalid_element};
use crate::tables::reader::TableReader;
use std::alloc::Global;
use toml::Value;
use values::{Items, ReadError, Text};

/// A kind of table.
pub trait TableKind {
    ghost use Rattle.std.specs.Prelude.{Result};
    ghost use Rattle.profile_toml.specs.declared.tables.path.BadEntry.{BadEntry as Bad};
    ghost use Rattle.profile_toml.specs.Tables.{PlacedTable};

    /// What a table of this kind is read as.
    type Record: Drop;

    ghost reads: { Self → PlacedTable → Result Self.Record Bad };

    /// Reads a table.
    fn read(&self, table: &TableReader<'_>) -> Result<Self::Record, ReadError<BadEntry>>
        ensures { Reads (λ read. read) result (reads self.now (placed table.now)) };
}

/// The tables of a list.
pub struct TableList<'t> {
    pub(crate) alloc: Global,
    pub(crate) path: Text,
    pub(crate) values: &'t [Value],
}

// Written out, so that no caller proves again how each part is dropped.
impl Drop for TableList<'_> {
    fn drop(self) {
        let TableList {
            alloc: _,
            path: _,
            values: _,
        } = self;
    }
}

fn read_element<'t>(
    alloc: Global,
    list: &'t str,
    index: usize,
    value: &'t Value,
) -> Result<TableReader<'t>, ReadError<BadEntry>>
    ensures { Reads (λ table. placed table) result (element list.now index (view value.now)) }
{
    match value.as_table() {
        Some(table) => Ok(TableReader {
            alloc,
            place: Place::Element(list, index),
            table,
        }),
        None => Err(ReadError::Fault(invalid_element(alloc, list, index)?)),
    }
}

/// Returns `BadEntry` for the first value of the list at a path that is no table.
pub(crate) fn check_tables(
    alloc: Global,
    list: &str,
    values: &[Value],
) -> Result<(), ReadError<BadEntry>>
    ensures { Reads (λ nothing. nothing) result (all_tables list.now 0 (items_view values.now)) }
{
    for (index, value) in values.iter().enumerate() {
        read_element(alloc, list, index, value)?;
    }
    Ok(())
}

impl<'t> TableList<'t> {
    /// Borrows the values of the list.
    pub fn values(&self) -> &'t [Value]
        ensures { items_view result.now ≡ (listed self.now).items }
    {
        self.values
    }

    /// Reads a value of the list as the table at an index.
    pub fn table<'l>(
        &'l self,
        index: usize,
        value: &'l Value,
    ) -> Result<TableReader<'l>, ReadError<BadEntry>>
        ensures { Reads (λ table. placed table) result
            (element (listed self.now).path index (view value.now)) }
    {
        read_element(self.alloc, self.path.as_str(), index, value)
    }

    // rule: Tables of a list
    /// Reads each table, as the kind says.
    pub fn read<K: TableKind>(&self, kind: &K) -> Result<Items<K::Record>, ReadError<BadEntry>>
        ensures { Reads (λ records. records) result (each (K.reads kind.now) (listed self.now)) }
    {
        let mut records = Items::empty(self.alloc);
        for (index, value) in self.values.iter().enumerate() {
            let table = self.table(index, value)?;
            let record = kind.read(&table)?;
            records.push(record)?;
        }
        Ok(records)
    }
}
