//! The service of a profile: an edition, and the mirrors of its packages.
//!
//! `make_service` makes a `Service` of a profile's edits and mirrors: read `specs/Services.antt`; `builtin_service` makes
//! that of the catalogue in `specs/Builtin.antt`. A `KeptService` also has where what is published of it is kept.
//! `totals_string` prints what each mirror granted: read `specs/Totals.antt`.
//!
//! It replies to nothing, and grants nothing.

mod builtin;
mod mirrors;
mod service;
mod totals;

pub use crate::services::mirrors::Mirrors;
pub use crate::services::service::{KeptService, Service, builtin_service, make_service};
pub use crate::services::totals::{names_of, totals_string};
