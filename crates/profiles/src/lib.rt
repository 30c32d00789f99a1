//! The service of a profile's file, and what a command prints.
//!
//! `open_service` makes the service that requests are replied to from, of the profile's file or the built-in catalogue,
//! and `read_service` of a profile's bytes: read `specs/Profiles.antt`. `print` writes what a command found: read
//! `specs/Printing.antt`. The streams of a run are those of `specs/Streams.antt`.
//!
//! It reads no profile's form, which is that of `profile_toml`, and carries out no command.

#![tactic(auto)]

mod printing;
mod profile;

pub use crate::printing::print;
pub use crate::profile::{
    MAX_PROFILE, open_profile, open_service, read_named, read_service, service_in,
};
