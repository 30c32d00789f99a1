//! The reply to one whole message of a connection.
//!
//! A `Desk` replies to the messages to its path, knows the packages, and may show pages; a `Clock` gives the time. A `Site`
//! is the packages, the clock and the watch that connections are served with. The function `answer` finds what a
//! message's target names, asks the desk or sends the package, and writes the reply. `begin` does the same, but of a
//! package it writes the head alone. Read `specs/Calls.antt`, `specs/Pages.antt`, `specs/Uses.antt`, `specs/Replies.antt` and
//! `specs/Begins.antt`.
//!
//! `Packages` reads the files that clients download. A `Transfer` makes one block by block, 65536 bytes at a
//! time, under a running SHA-256, and holds the last block back until the digest agrees: a file
//! that was changed is never sent whole. `send_package` writes all its blocks. Read `specs/Transfers.antt` and
//! `specs/Downloads.antt`.
//!
//! Nothing here takes memory but a desk's reply. It does not read, and does not know where a message
//! begins or ends, nor which packages a catalogue has.

#![tactic(auto)]

mod answering;
mod clock;
mod desk;
mod download;
mod empty;
mod fetching;
mod method;
mod package;
mod page;
mod showing;
mod site;
mod transfer;

pub use crate::answering::{Begun, Handled, Request, answer, begin};
pub use crate::clock::Clock;
pub use crate::desk::{Answer, Desk, DeskStatus, Off};
pub use crate::download::{BLOCK, send_package};
pub use crate::empty::send_empty;
pub use crate::method::Method;
pub use crate::package::Packages;
pub use crate::page::{Page, PageKind};
pub use crate::site::Site;
pub use crate::transfer::{NextBlock, Transfer};
pub use values::Declared;
