//! The catalogue: apps with their releases, differentials and cohorts, made by batches of edits.
//!
//! A `Catalogue` is seen as the list of its `App`s; `Catalogue::apply` takes a `Batch` of `Edit`s whole or rejects it
//! whole, with the first rejected edit and its `Fault`. Read `specs/Batches.antt` for the meaning of a batch,
//! `specs/Edits.antt` for the faults of each edit in their order and the change that it makes, and `specs/Changes.antt`
//! for the kinds of change.
//!
//! The records that it is made of, and the mirrors beside it, are plain: read `specs/Forms.antt` for the forms of their
//! strings, `specs/Lookups.antt` for how an item is found and `specs/Validity.antt` for what is true of every
//! catalogue. `form` tests a string, `lookup` finds an item, and a `Mirror` says whether it is valid.
//!
//! A `Version` is sixteen numbers, which contracts see as their list; components that a string leaves out count as 0.
//! `Version::parse` takes the strings that a publisher may write, and `Version::lenient` any string that a client
//! sends. What a string spells, and the order, are in `specs/Versions.antt`; `version_laws` has what holds of them.
//! Whoever prints a release keeps the string beside it.
//!
//! `histories` has what holds over whole histories of batches and of whole contents, each law as the contract of a
//! function that does nothing when it runs: read `specs/Histories.antt`, and `specs/Contents.antt` for the edits that
//! make a content anew. A crate that needs a law calls its function.
//!
//! It does not decide which release a client is offered, nor read profiles: crates above do.

#![tactic(auto)]

mod catalogue;
mod change;
mod content;
mod draft;
mod edit;
mod edits;
mod fault;
pub mod form;
pub mod histories;
pub mod lookup;
mod mirror;
mod package_index;
mod spelling;
mod version;
pub mod version_laws;

pub use crate::catalogue::Catalogue;
pub use crate::content::{App, Cohort, Diff, Release};
pub use crate::edit::{Batch, Edit};
pub use crate::edits::apps::AddApp;
pub use crate::edits::cohort_settings::{CohortSetting, SetOpen, SetRollback, SetShare, SetTarget};
pub use crate::edits::cohorts::AddCohort;
pub use crate::edits::diffs::AddDiff;
pub use crate::edits::release_settings::{
    ReleaseSetting, SetAudience, SetFloor, SetStone, SetWithdrawn,
};
pub use crate::edits::releases::AddRelease;
pub use crate::fault::{Fault, Refused};
pub use crate::mirror::Mirror;
pub use crate::version::Version;
pub use values::Declared;
