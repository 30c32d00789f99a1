//! The lines of a script's words.

ghost use Rattle.std.specs.Prelude.{◌≡◌, ◌++◌, OnOk};
ghost use Rattle.profile_toml.specs.Lines.{edit_string, pair_string, word_string};

use crate::script_lines::value::{Key, Quoted, push_value};
use std::alloc::{AllocError, Global};

// Adds the beginning of an edit.
fn push_edit(alloc: Global, text: &mut Vec<u8>, name: &str) -> Result<(), AllocError>
    ensures { OnOk result (text.new.items ≡ text.old.items ++ edit_string name.now) }
{
    if name == "--" {
        return Ok(());
    }
    let name = Quoted { string: name };
    let line = format!(in alloc; "\n[[edit]]\ndo = {name}\n")?;
    text.extend_from_slice(line.as_bytes())
}

// Adds a key with its value.
fn push_pair(alloc: Global, text: &mut Vec<u8>, key: &str, value: &str) -> Result<(), AllocError>
    ensures { OnOk result (text.new.items ≡ text.old.items ++ pair_string key.now value.now) }
{
    let name = Key { string: key };
    let name = format!(in alloc; "{name} = ")?;
    text.extend_from_slice(name.as_bytes())?;
    push_value(alloc, text, key, value)?;
    text.extend_from_slice(b"\n")
}

// rule: Words of a script
/// Adds the lines of a word: those that begin an edit or, with `=`, a key with its value.
pub(crate) fn push_word(alloc: Global, text: &mut Vec<u8>, word: &str) -> Result<(), AllocError>
    ensures { OnOk result (text.new.items ≡ text.old.items ++ word_string word.now) }
{
    match word.split_once('=') {
        Some((key, value)) => push_pair(alloc, text, key, value),
        None => push_edit(alloc, text, word),
    }
}
