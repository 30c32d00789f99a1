//! Scripts that an operator types, written as TOML.
//!
//! `write_script` makes the TOML document of a script: a word without `=` begins an edit, and each word `KEY=VALUE` after
//! it is one of its keys. Read `specs/Lines.antt`. What it returns is read by `profile_toml::read_script`, so words that
//! make no script have the fault that the script would have.
//!
//! It does not check what an edit says: that is `catalogue`.

mod script;
mod value;
mod word;

pub use crate::script_lines::script::write_script;
