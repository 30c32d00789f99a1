//! Profiles that are written: a catalogue and its mirrors as the TOML document of a profile.
//!
//! `write_profile` writes a document that `profile_toml::read_profile` reads back, as the same mirrors and
//! as edits that make the same content. `specs/WrittenFields.antt` says which keys each table of a content's
//! profile has, `specs/WrittenProfiles.antt` what its bytes are and are read as, and `laws` that a content has one
//! such profile.
//!
//! The kit's `toml` prints the document. It reads no profile: the root of the crate does.

mod app;
mod cohort;
pub mod laws;
mod profile;
mod release;
mod table;

pub use crate::writing::profile::write_profile;
