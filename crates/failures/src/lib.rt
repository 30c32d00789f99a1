//! Why a command fails, what is printed of it, and what codes and words mean.
//!
//! A `Failure` is why a command fails: read `specs/Failures.antt` for what it prints, and `specs/Rejections.antt` for
//! which one a reader's error is. A `HistoryFault` is what is wrong with a history, and a `RecordFault` why a record of
//! it has no place there: read `specs/HistoryFaults.antt` and `specs/RecordFaults.antt`. `explanations` has what codes
//! and words mean: read `specs/Explanations.antt`.
//!
//! It carries out no command, and prints nothing.

#![tactic(auto)]

mod explanations;
mod failure;
mod history_fault;
mod record_fault;

pub use crate::explanations::{explain, list};
pub use crate::failure::Failure;
pub use crate::history_fault::HistoryFault;
pub use crate::record_fault::RecordFault;
