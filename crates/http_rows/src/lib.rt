//! Rows of HTTP: heads, bodies, replies, packages and sessions over devices in memory that give and take pieces, and of
//! which a call may fail; the peers of a port in memory; the devices of a server; and the access log.
//!
//! A row of peers says what each sends and how it behaves, and then how each connection ends and what its peer gets:
//! `http_ports::run` serves the peers of a script of `http_memory` by the sessions of `http_sessions`.
//!
//! It has tests alone, so that the crates of HTTP are proved once.

#![tactic(auto)]

#[cfg(test)]
mod desks;
#[cfg(test)]
mod device_tests;
#[cfg(test)]
mod failing_session_tests;
#[cfg(test)]
mod lines;
#[cfg(test)]
mod out_of_memory_tests;
#[cfg(test)]
mod peers;
#[cfg(test)]
mod port_tests;
#[cfg(test)]
mod ports;
#[cfg(test)]
mod queue_tests;
#[cfg(test)]
mod scripted;
#[cfg(test)]
mod session_tests;
#[cfg(test)]
mod watched_tests;
#[cfg(test)]
mod whole_tests;
#[cfg(test)]
mod writers;
