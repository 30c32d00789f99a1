//! What the codes and words mean that the program prints.
//!
//! `explain` finds what there is to say of one: where it is found, what it means, its usual cause and the
//! remedy; `list` names them all. Read `specs/Explanations.antt`.
//!
//! It holds strings: when a code is printed is said where the fault is found.

mod budgets;
mod certificate_codes;
mod edits;
mod explaining;
mod lines;
mod profiles;
mod requests;
mod tables;
mod walks;
mod words;

pub use crate::explanations::explaining::{explain, list};
