//! Rows of kept records: in memory, in a database in memory, and in files on a disk that stops at some call.
//!
//! A row says which calls are made, and what each comes to. A `Disk` opens its history, does with the records what a
//! `Life` does, and gives back itself; `follows` makes the calls of a row on any records.
//!
//! It has tests alone, so that the crates below are proved once.

#![tactic(auto)]

#[cfg(test)]
mod calls;
#[cfg(test)]
mod crash_tests;
#[cfg(test)]
mod disk;
#[cfg(test)]
mod etcd_tests;
#[cfg(test)]
mod file_tests;
#[cfg(test)]
mod memory_tests;
