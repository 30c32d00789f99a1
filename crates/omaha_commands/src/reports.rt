//! What is reported of an edition, and the check of a table by several threads.
//!
//! `summary` counts what an edition has, `certify` writes the certificate of a track that is chosen by names, and
//! `verify` says whether a certificate is valid. Read `specs/Summaries.antt` and `specs/Certificates.antt`.
//! `check_parallel` returns what `price_cert::check` does, in both outcomes; `specs/Pieces.antt` has the pieces in
//! which threads test the rows.
//!
//! It reads no file, prints nothing, finds no prices, and has no rule of its own.

mod certifying;
mod checking;
mod counting;
mod names;
mod pieces;
mod tables;
mod verifying;

pub use crate::reports::certifying::certify;
pub use crate::reports::checking::check_parallel;
pub use crate::reports::counting::summary;
pub use crate::reports::verifying::verify;
