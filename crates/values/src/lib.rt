//! Strings, lists and errors of readers, as every other crate's contracts see them.
//!
//! A `Text` holds a `String` and is seen as its bytes; `Items` hold a `Vec` and are seen as its list; so are
//! `SharedItems`, which their clones share, and a `Shared` is seen as its one item. So plain structs of them are compared by content, and never by
//! capacity or address. A `ReadError` is a reader's fault, or out of memory; `Reads` of `specs/Reading.antt` says
//! that a reader gives what a definition gives. `Failed` is the error of a device. `Declared` is what a catalogue
//! says of a package, to those too that know no catalogue. `specs/Lists.antt` and `specs/Ordered.antt` define what
//! the standard library lacks of lists, and `proofs/` has their lemmas.
//!
//! It does not say what a string or a list means: the crate that owns it does.

#![tactic(auto)]

mod declared;
mod failed;
mod items;
mod read_error;
mod shared;
mod shared_items;
mod text;

pub use crate::declared::Declared;
pub use crate::failed::Failed;
pub use crate::items::Items;
pub use crate::read_error::ReadError;
pub use crate::shared::Shared;
pub use crate::shared_items::SharedItems;
pub use crate::text::Text;
