//! The keys of one table.

ghost use Rattle.std.specs.Prelude.{◌≡◌, Err, IfOk, map, option_and_then, option_map};
ghost use Rattle.std.specs.List.{list_any};
ghost use Rattle.std.specs.Str.{bytes_eq};
ghost use Rattle.values.specs.Reading.{Reads};
ghost use Rattle.toml.specs.Data.{as_bool, as_str, get_member};
ghost use Rattle.toml.specs.View.{table_view, view};
ghost use Rattle.profile_toml.specs.Fields.{as_natural, known, optional, required};
ghost use Rattle.profile_toml.specs.Lists.{optional_tables, required_tables, tables_of};
ghost use Rattle.profile_toml.specs.Paths.{invalid_key};
ghost use Rattle.profile_toml.specs.Readers.{listed, placed};
ghost use Rattle.profile_toml.specs.Tables.{document};

use crate::tables::list::{TableList, check_tables};
use crate::tables::path::{BadEntry, Place, invalid_key, write_path};
use std::alloc::{AllocError, Global};
use toml::{Table, Value};
use values::{ReadError, Text};

/// Reads the keys of one table.
///
/// Each reader of a key returns the path of the key if it is missing or of the wrong type; an
/// optional one returns `None` if the key is missing.
#[derive(Clone, Copy)]
pub struct TableReader<'t> {
    pub(crate) alloc: Global,
    pub(crate) place: Place<'t>,
    pub(crate) table: &'t Table,
}

fn has_key(keys: &[&str], key: &str) -> bool
    ensures { result ≡ list_any (bytes_eq key.now) (map (λ known. known.now) keys.now) }
{
    for known in keys {
        if key == *known {
            return true;
        }
    }
    false
}

fn as_natural(value: &Value) -> Option<u64>
    ensures { result ≡ as_natural (view value.now) }
{
    match value.as_integer() {
        Some(number) if number >= 0 => Some(number as u64),
        _ => None,
    }
}

impl<'t> TableReader<'t> {
    /// Reads the table of a whole document.
    pub fn new(alloc: Global, table: &'t Table) -> TableReader<'t>
        ensures { placed result ≡ document (table_view table.now) }
    {
        TableReader {
            alloc,
            place: Place::Top,
            table,
        }
    }

    /// The allocator that the reader takes memory from.
    pub fn alloc(&self) -> Global {
        self.alloc
    }

    /// Makes the error of a key, for a rule that its type does not say.
    pub fn invalid_entry(&self, key: &str) -> Result<BadEntry, AllocError>
        ensures { IfOk result (λ entry. entry ≡ invalid_key (placed self.now).place key.now) }
    {
        invalid_key(self.alloc, &self.place, key)
    }

    /// Rejects a key, as `invalid_entry` says.
    pub(crate) fn reject<T>(&self, key: &str) -> Result<T, ReadError<BadEntry>>
        ensures { Reads (λ value. value) result (Err (invalid_key (placed self.now).place key.now)) }
    {
        match self.invalid_entry(key) {
            Ok(entry) => Err(ReadError::Fault(entry)),
            Err(_) => Err(ReadError::Memory),
        }
    }

    /// Returns `BadEntry` for the first key, in byte order, that is none of `keys`.
    pub fn check_keys(&self, keys: &[&str]) -> Result<(), ReadError<BadEntry>>
        ensures { Reads (λ nothing. nothing) result
            (known (map (λ key. key.now) keys.now) (placed self.now)) }
    {
        for (key, _) in self.table.iter() {
            if !has_key(keys, key.as_str()) {
                return self.reject(key.as_str());
            }
        }
        Ok(())
    }

    pub(crate) fn value(&self, key: &str) -> Option<&'t Value>
        ensures { option_map (λ value. view value.now) result
            ≡ get_member key.now (placed self.now).members }
    {
        self.table.get(key)
    }

    fn str(&self, key: &str) -> Option<&'t str>
        ensures { option_map (λ text. text.now) result
            ≡ option_and_then as_str (get_member key.now (placed self.now).members) }
    {
        match self.value(key) {
            Some(value) => value.as_str(),
            None => None,
        }
    }

    /// Copies the string under a key.
    pub fn string(&self, key: &str) -> Result<Text, ReadError<BadEntry>>
        ensures { Reads (λ text. text) result (required as_str key.now (placed self.now)) }
    {
        match self.str(key) {
            Some(text) => Ok(Text::copy_of(self.alloc, text)?),
            None => self.reject(key),
        }
    }

    /// Reads the integer under a key, from 0 to 2^63 - 1.
    pub fn natural(&self, key: &str) -> Result<u64, ReadError<BadEntry>>
        ensures { Reads (λ number. number) result (required as_natural key.now (placed self.now)) }
    {
        match self.value(key).and_then(as_natural) {
            Some(number) => Ok(number),
            None => self.reject(key),
        }
    }

    /// Reads the boolean under a key.
    pub fn flag(&self, key: &str) -> Result<bool, ReadError<BadEntry>>
        ensures { Reads (λ flag. flag) result (required as_bool key.now (placed self.now)) }
    {
        match self.value(key).and_then(Value::as_bool) {
            Some(flag) => Ok(flag),
            None => self.reject(key),
        }
    }

    /// Copies the string under a key, if there is one.
    pub fn optional_string(&self, key: &str) -> Result<Option<Text>, ReadError<BadEntry>>
        ensures { Reads (λ text. text) result (optional as_str key.now (placed self.now)) }
    {
        let Some(value) = self.value(key) else {
            return Ok(None);
        };
        match value.as_str() {
            Some(text) => Ok(Some(Text::copy_of(self.alloc, text)?)),
            None => self.reject(key),
        }
    }

    /// Reads the integer under a key, from 0 to 2^63 - 1, if there is one.
    pub fn optional_natural(&self, key: &str) -> Result<Option<u64>, ReadError<BadEntry>>
        ensures { Reads (λ number. number) result (optional as_natural key.now (placed self.now)) }
    {
        let Some(value) = self.value(key) else {
            return Ok(None);
        };
        match as_natural(value) {
            Some(number) => Ok(Some(number)),
            None => self.reject(key),
        }
    }

    /// Reads the boolean under a key, if there is one.
    pub fn optional_flag(&self, key: &str) -> Result<Option<bool>, ReadError<BadEntry>>
        ensures { Reads (λ flag. flag) result (optional as_bool key.now (placed self.now)) }
    {
        let Some(value) = self.value(key) else {
            return Ok(None);
        };
        match value.as_bool() {
            Some(flag) => Ok(Some(flag)),
            None => self.reject(key),
        }
    }

    #[tactic(auto, unfolding(crate::specs::Lists::tables_of))]
    fn tables(&self, key: &str, value: &'t Value) -> Result<TableList<'t>, ReadError<BadEntry>>
        ensures { Reads (λ list. listed list) result
            (tables_of key.now (placed self.now) (view value.now)) }
    {
        let Some(values) = value.as_array() else {
            return Err(ReadError::Fault(self.invalid_entry(key)?));
        };
        let path = write_path(self.alloc, &self.place, key)?;
        check_tables(self.alloc, path.as_str(), values)?;
        Ok(TableList {
            alloc: self.alloc,
            path,
            values,
        })
    }

    /// Borrows the list of tables under a key.
    #[tactic(auto, unfolding(crate::specs::Lists::required_tables))]
    pub fn list(&self, key: &str) -> Result<TableList<'t>, ReadError<BadEntry>>
        ensures { Reads (λ list. listed list) result
            (required_tables key.now (placed self.now)) }
    {
        match self.value(key) {
            Some(value) => self.tables(key, value),
            None => Err(ReadError::Fault(self.invalid_entry(key)?)),
        }
    }

    /// Borrows the list of tables under a key, the empty one if the key is missing.
    #[tactic(auto, unfolding(crate::specs::Lists::optional_tables))]
    pub fn optional_list(&self, key: &str) -> Result<TableList<'t>, ReadError<BadEntry>>
        ensures { Reads (λ list. listed list) result
            (optional_tables key.now (placed self.now)) }
    {
        match self.value(key) {
            Some(value) => self.tables(key, value),
            None => Ok(TableList {
                alloc: self.alloc,
                path: write_path(self.alloc, &self.place, key)?,
                values: &[],
            }),
        }
    }
}
