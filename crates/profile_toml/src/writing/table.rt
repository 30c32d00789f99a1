//! Tables of a TOML document, filled key by key.

ghost use Rattle.std.specs.Prelude.{◌≡◌, ◌<◌, ◌^◌, map, option_map, IfOk, OnOk};
ghost use Rattle.toml.specs.Data.{no_members};
ghost use Rattle.toml.specs.View.{items_view, table_view, view};
ghost use Rattle.profile_toml.specs.WrittenTables.{flag, natural, optional_natural, optional_string, optional_list, put, table_items, tables, given_string, string_items, with_key};
ghost use Rattle.profile_toml.specs.Writers.{filled};

use std::alloc::{AllocError, Global};
use toml::{Table, Value};
use values::{Items, Text};

/// A table that is filled; contracts see its keys with their values as `filled`.
pub(crate) struct TableWriter {
    alloc: Global,
    table: Table,
}

// Written out, so that no caller proves again how each part is dropped.
impl Drop for TableWriter {
    fn drop(self) {
        let TableWriter { alloc: _, table: _ } = self;
    }
}

fn string_values(alloc: Global, texts: &[Text]) -> Result<Vec<Value>, AllocError>
    ensures { IfOk result (λ values. items_view values.items ≡ string_items texts.now) }
{
    let mut values = Vec::new(alloc);
    for text in texts {
        values.push(Value::string(alloc, text.as_str())?)?;
    }
    Ok(values)
}

fn table_values(alloc: Global, tables: Vec<Table>) -> Result<Vec<Value>, AllocError>
    ensures { IfOk result (λ values. items_view values.items
        ≡ table_items (map table_view tables.items)) }
{
    let mut values = Vec::new(alloc);
    for table in tables {
        values.push(Value::from(table))?;
    }
    Ok(values)
}

impl TableWriter {
    /// Makes a table without keys, and takes no memory.
    pub fn new(alloc: Global) -> TableWriter
        ensures { filled result ≡ no_members }
    {
        TableWriter {
            alloc,
            table: Table::new(alloc),
        }
    }

    fn put(&mut self, key: &str, value: Value) -> Result<(), AllocError>
        ensures { OnOk result (filled self.new ≡ put key.now (view value) (filled self.old)) }
    {
        let key = String::from_str(self.alloc, key)?;
        self.table.insert(key, value)?;
        Ok(())
    }

    /// Puts a string under a key.
    pub fn string(&mut self, key: &str, string: &str) -> Result<(), AllocError>
        ensures { OnOk result
            (filled self.new ≡ with_key key.now (given_string string.now) (filled self.old)) }
    {
        self.put(key, Value::string(self.alloc, string)?)
    }

    /// Puts a number under a key.
    pub fn natural(&mut self, key: &str, number: u64) -> Result<(), AllocError>
        requires { number < 2 ^ 63 }
        ensures { OnOk result (filled self.new ≡ with_key key.now (natural number) (filled self.old)) }
    {
        self.put(key, Value::from(number as i64))
    }

    /// Puts `true` under a key if the flag is on.
    pub fn flag(&mut self, key: &str, on: bool) -> Result<(), AllocError>
        ensures { OnOk result (filled self.new ≡ with_key key.now (flag on) (filled self.old)) }
    {
        if !on {
            return Ok(());
        }
        self.put(key, Value::from(true))
    }

    /// Puts a string under a key if there is one.
    pub fn optional_string(&mut self, key: &str, string: Option<&str>) -> Result<(), AllocError>
        ensures { OnOk result
            (let given = option_map (λ bytes. bytes.now) string.entry in
            filled self.new ≡ with_key key.now (optional_string given) (filled self.old)) }
    {
        match string {
            Some(string) => self.string(key, string),
            None => Ok(()),
        }
    }

    /// Puts a list of strings under a key if there is one.
    pub fn optional_strings(
        &mut self,
        key: &str,
        strings: &Option<Items<Text>>,
    ) -> Result<(), AllocError>
        ensures { OnOk result
            (filled self.new ≡ with_key key.now (optional_list strings.now) (filled self.old)) }
    {
        match strings {
            Some(strings) => {
                let values = string_values(self.alloc, strings.as_slice())?;
                self.put(key, Value::from(values))
            }
            None => Ok(()),
        }
    }

    /// Puts a list of tables under a key if it is not empty.
    pub fn tables(&mut self, key: &str, list: Vec<Table>) -> Result<(), AllocError>
        ensures { OnOk result
            (filled self.new ≡ with_key key.now (tables (map table_view list.items)) (filled self.old)) }
    {
        if list.is_empty() {
            return Ok(());
        }
        let values = table_values(self.alloc, list)?;
        self.put(key, Value::from(values))
    }

    /// Gives the table, and takes no memory.
    pub fn into_table(self) -> Table
        ensures { table_view result ≡ filled self }
    {
        let TableWriter { alloc: _, table } = self;
        table
    }
}
