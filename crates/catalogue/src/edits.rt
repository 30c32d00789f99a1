//! A room for each kind of edit: its fields, and the checks that accept it, in the order of their
//! faults.

pub(crate) mod apps;
pub(crate) mod cohort_settings;
pub(crate) mod cohorts;
pub(crate) mod diffs;
pub(crate) mod release_settings;
pub(crate) mod releases;
