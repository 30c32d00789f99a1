//! Lists of strings.

ghost use Rattle.values.specs.Reading.{Reads};
ghost use Rattle.toml.specs.View.{items_view, view};
ghost use Rattle.profile_toml.specs.Readers.{placed};
ghost use Rattle.profile_toml.specs.Strings.{optional_strings, string_element, strings_from, strings_of};

use crate::tables::path::{BadEntry, invalid_element, write_path};
use crate::tables::reader::TableReader;
use std::alloc::Global;
use toml::Value;
use values::{Items, ReadError, Text};

fn read_element(
    alloc: Global,
    list: &str,
    index: usize,
    value: &Value,
) -> Result<Text, ReadError<BadEntry>>
    ensures { Reads (λ text. text) result (string_element list.now index (view value.now)) }
{
    match value.as_str() {
        Some(text) => Ok(Text::copy_of(alloc, text)?),
        None => Err(ReadError::Fault(invalid_element(alloc, list, index)?)),
    }
}

// The strings of the list at a path.
fn read_all(alloc: Global, list: &str, values: &[Value]) -> Result<Items<Text>, ReadError<BadEntry>>
    ensures { Reads (λ strings. strings) result (strings_from list.now 0 (items_view values.now)) }
{
    let mut strings = Items::empty(alloc);
    for (index, value) in values.iter().enumerate() {
        let text = read_element(alloc, list, index, value)?;
        strings.push(text)?;
    }
    Ok(strings)
}

impl TableReader<'_> {
    #[tactic(auto, unfolding(crate::specs::Strings::strings_of))]
    fn strings_in(&self, key: &str, value: &Value) -> Result<Items<Text>, ReadError<BadEntry>>
        ensures { Reads (λ strings. strings) result (strings_of key.now (placed self.now) (view value.now)) }
    {
        let Some(values) = value.as_array() else {
            return self.reject(key);
        };
        let path = write_path(self.alloc, &self.place, key)?;
        read_all(self.alloc, path.as_str(), values)
    }

    // rule: Strings of a list
    /// Copies the strings of the list under a key, if there is one.
    ///
    /// Returns the path of the key if it is no list, else that of the first element that is no string.
    pub fn optional_strings(&self, key: &str) -> Result<Option<Items<Text>>, ReadError<BadEntry>>
        ensures { Reads (λ strings. strings) result (optional_strings key.now (placed self.now)) }
    {
        match self.value(key) {
            Some(value) => Ok(Some(self.strings_in(key, value)?)),
            None => Ok(None),
        }
    }
}
