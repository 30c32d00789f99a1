//! Strings as XML and HTML have them.
//!
//! `escaped` is a string as the content of an element or the value of a quoted attribute has it. Read `specs/Escaping.antt`.
//!
//! It knows no elements and no attributes.

mod escaping;

pub use crate::markup::escaping::{escaped, push_escaped};
