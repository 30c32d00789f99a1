//! A worked row of a server with each byte of its connections, over ports in memory. Its workers wait for each other. And
//! the reply of a worker whose till grants nothing.
//!
//! It has tests alone, so that `omaha_server` is proved once. What workers reply, and what is published meanwhile, is in rows
//! of the program.

#![tactic(auto)]

#[cfg(test)]
mod meetings;
#[cfg(test)]
mod rooms;
#[cfg(test)]
mod served_tests;
#[cfg(test)]
mod tills;
#[cfg(test)]
mod worker_tests;
