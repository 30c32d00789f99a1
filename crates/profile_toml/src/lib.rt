//! Profiles and scripts: an operator's TOML documents, read and written, and the edits that they make.
//!
//! A profile lists the mirrors and the apps of a vendor; `read_profile` returns the batch of edits that makes such a
//! catalogue, and the mirrors. A script lists edits one by one, with the number of the edition that it is written for;
//! `read_script` returns both. `specs/Reading.antt` says what a document is read as, or which `ProfileFault` it has:
//! the first one. Read `specs/Apps.antt` for a profile's edits in their order, `specs/ScriptEdits.antt` for the edits
//! of a script, and `laws` for what holds of every profile.
//!
//! `tables` reads the keys of a table and their paths, and knows no profile. `writing` writes a catalogue and its
//! mirrors as a profile that is read back as the same, and `script_lines` an edit's words as a script.
//!
//! This crate does not apply a batch and does not check what an edit says: that is `catalogue`. TOML is the kit's
//! `toml`.

#![tactic(auto)]

mod app;
mod cohort;
mod diff;
mod document;
mod fault;
pub mod laws;
mod mirror;
mod profile;
mod release;
mod script;
mod script_edit;
mod script_lines;
pub mod tables;
pub mod writing;

pub use crate::fault::ProfileFault;
pub use crate::profile::read_profile;
pub use crate::script::read_script;
pub use crate::script_lines::write_script;
pub use crate::tables::{BadEntry, TableKind, TableList, TableReader};
pub use crate::writing::write_profile;
