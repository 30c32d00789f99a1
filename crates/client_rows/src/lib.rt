//! Rows of a client: what it reads of replies, how it posts and downloads over devices that give and take pieces, and how
//! far it goes, whatever call of a device, its link or its installer fails.
//!
//! `replies` has what is read of replies whose bytes and records were worked out by hand; `link_tests` and
//! `failing_link_tests` posts and downloads; `walks`, `failing_walks` and `out_of_memory_tests` an update client over
//! memory, and what its downloads hold.
//!
//! It has tests alone, so that `update_client` is proved once. What a server reads and writes is in rows of the program, and
//! in the laws of `omaha_json`.

#![tactic(auto)]

#[cfg(test)]
mod body;
#[cfg(test)]
mod countdown;
#[cfg(test)]
mod failing_link_tests;
#[cfg(test)]
mod failing_walks;
#[cfg(test)]
mod lines;
#[cfg(test)]
mod link_tests;
#[cfg(test)]
mod links;
#[cfg(test)]
mod out_of_memory_tests;
#[cfg(test)]
mod played;
#[cfg(test)]
mod replies;
#[cfg(test)]
mod shelf;
#[cfg(test)]
mod two_steps;
#[cfg(test)]
mod update_client_replies;
#[cfg(test)]
mod walks;
