//! The devices of a server over the standard library: connections, a folder of packages, and the clock.
//!
//! `Reading` and `Writing` are the `Source` and the `Sink` over any reader and writer, such as a socket;
//! each counts its failures. A `Folder` has the packages of a server, a file each, over whatever opens
//! `RegularFiles`; `OpenPackages` says why one can't be opened. `SystemClock` gives the time. Read
//! `specs/Names.antt` for the names that a folder opens.
//!
//! It opens no connection, and doesn't know which packages a catalogue has.

#![tactic(auto)]

mod clock;
mod entry;
mod failures;
mod folder;
mod name;
mod opening;
mod reading;
mod regular;
mod writing;

pub use crate::clock::SystemClock;
pub use crate::entry::Entry;
pub use crate::failures::Failures;
pub use crate::folder::Folder;
pub use crate::opening::OpenPackages;
pub use crate::reading::Reading;
pub use crate::regular::RegularFiles;
pub use crate::writing::Writing;
