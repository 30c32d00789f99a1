//! Worked rows of catalogues: the order of versions, the files of packages, the buckets that a change of cohorts cuts off or
//! moves, the graphs of tracks, and tables of prices, made by several threads, and kept by editions and reviews; plans; calls without memory; and what a server's threads share:
//! what is published to views, also by two threads, and budgets that two workers ask for while they are raised.
//!
//! It has tests alone, so that the libraries below are proved once. What profiles and scripts are read as, what they are
//! rejected for, how a catalogue is written, certificates, what a server replies, and what its operator's
//! desk keeps are in rows of the program.

#![tactic(auto)]

#[cfg(test)]
mod certified;
#[cfg(test)]
mod changed_cohorts;
#[cfg(test)]
mod closing;
#[cfg(test)]
mod descriptions;
#[cfg(test)]
mod errors;
#[cfg(test)]
mod file_tests;
#[cfg(test)]
mod findings;
#[cfg(test)]
mod graphs;
#[cfg(test)]
mod kept;
#[cfg(test)]
mod out_of_memory_tests;
#[cfg(test)]
mod planned;
#[cfg(test)]
mod raising;
#[cfg(test)]
mod reviewed;
#[cfg(test)]
mod shelf;
#[cfg(test)]
mod two_publishers;
#[cfg(test)]
mod version_tests;
#[cfg(test)]
mod view_tests;
