//! Tables of prices, and the check that makes sure that each price is the least sum of bytes.
//!
//! A table, `Prices`, has a `Row` for each release of an app. `check` tests four rules in each row against the graph of
//! the table's track. A table that passes is `Certified`: each of its prices is the least sum of bytes over all chains
//! from its release to the target, and a release without a price has no chain. Read `specs/Rules.antt` for the rules,
//! `specs/Chains.antt` for chains and least sums, `laws` for what the rules imply, and `specs/Examples.antt` for tables
//! that are worked by hand.
//!
//! Most tables are right, so the check first goes along the releases once, with the best payload of each: read
//! `specs/Best.antt`. Only a table that fails there is tested rule by rule. Whoever finds prices goes along the
//! releases in the same way, by `best_below`, `best_above` and `best_row`.
//!
//! Several threads can share the work of the check: `passes` is the quick test, `broken_at` tests a row, `check_pair`
//! and `check_row` test parts of one, and `into_certified` makes a `Certified` of a table that was found right.
//!
//! It does not find prices: whoever does is checked here. It speaks of a graph alone: what a table says of a catalogue
//! is in `quotes`, and how it is written as lines in `certificates`.

#![tactic(auto)]

mod best;
mod certified;
mod kept;
pub mod laws;
mod parts;
mod passing;
mod row;
mod rules;
mod windows;

pub use crate::certified::{Certified, check, into_certified};
pub use crate::parts::{check_pair, check_row};
pub use crate::passing::passes;
pub use crate::row::{Prices, Row};
pub use crate::rules::{Rule, Wrong, broken_at};
pub use crate::windows::{best_above, best_below, best_row, best_to_target};
