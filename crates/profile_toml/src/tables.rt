//! Tables of a TOML document, read key by key.
//!
//! A `TableReader` reads the keys of one table and a `TableList` the tables of a list. A `TableKind` says what a kind
//! of table is read as, and `TableList::read` reads a whole list of it. The error is a `BadEntry`: the path of the
//! first key that is unknown, missing or of the wrong type, as `app[0].release[2].size`. `specs/Fields.antt`,
//! `specs/Lists.antt` and `specs/Strings.antt` say what a key and a list are read as, and `specs/Paths.antt` how a path
//! is written.
//!
//! It does not parse TOML: that is the kit's `toml`. It does not know which keys a table of a profile has.

pub mod laws;
mod list;
mod path;
mod reader;
mod strings;

pub use crate::tables::list::{TableKind, TableList};
pub use crate::tables::path::BadEntry;
pub use crate::tables::reader::TableReader;
