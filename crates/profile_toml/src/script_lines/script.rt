//! Typed scripts.

ghost use Rattle.std.specs.Prelude.{◌≡◌, ◌++◌, IfOk, OnOk, string_bytes};
ghost use Rattle.values.specs.Reading.{Reads};
ghost use Rattle.profile_toml.specs.Lines.{head_string, script_string, script_written, words_string};

use crate::fault::ProfileFault;
use crate::script::read_script;
use crate::script_lines::word::push_word;
use std::alloc::{AllocError, Global};
use values::{ReadError, Text};

fn head_string(alloc: Global, base: u64) -> Result<String, AllocError>
    ensures { IfOk result (λ head. string_bytes head ≡ head_string base) }
{
    format!(in alloc; "schema = 2\nbase = {base}\n")
}

// Adds the lines of some words.
fn push_words(alloc: Global, text: &mut Vec<u8>, words: &[Text]) -> Result<(), AllocError>
    ensures { OnOk result (text.new.items ≡ text.old.items ++ words_string words.now) }
{
    for word in words {
        push_word(alloc, text, word.as_str())?;
    }
    Ok(())
}

fn write_lines(alloc: Global, base: u64, words: &[Text]) -> Result<Vec<u8>, AllocError>
    ensures { IfOk result (λ text. text.items ≡ script_string base words.now) }
{
    let mut text = head_string(alloc, base)?.into_bytes();
    push_words(alloc, &mut text, words)?;
    Ok(text)
}

// rule: Typed script
/// Writes a script of schema 2 for the edition of number `base`.
///
/// A word without `=` is the `do` of the next edit, and each word `KEY=VALUE` one of its keys. The value of `size` and of
/// `share` is a number, that of `on` is `true` or `false`, that of `cohorts` is names with commas between them, and every
/// other is a string. A word `--` says nothing. The keys stay in their order. Fails with the fault that `read_script` finds
/// in what it has written, as `F3 BadEntry edit[0].share`, and with `Memory`. What the edits say is not checked.
pub fn write_script(
    alloc: Global,
    base: u64,
    words: &[Text],
) -> Result<Vec<u8>, ReadError<ProfileFault>>
    ensures { Reads (λ text. text.items) result (script_written base words.now) }
{
    let text = write_lines(alloc, base, words)?;
    match read_script(alloc, text.as_slice()) {
        Ok(_) => Ok(text),
        Err(error) => Err(error),
    }
}
