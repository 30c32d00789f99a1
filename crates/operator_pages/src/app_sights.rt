//! What an operator's page shows of the releases of each app: the clients who are stuck, and a picture.
//!
//! `sights_of` reviews a catalogue by its tables and makes an `AppSight` of each app, unless the catalogue is too large
//! for a page. Read `specs/AppSights.antt`.
//!
//! It writes no page, and finds no chain: `reviews` does.

mod clients;
mod limits;
mod sights;
mod stuck;

pub use crate::app_sights::sights::sights_of;
