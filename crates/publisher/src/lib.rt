//! Published editions that readers never wait for.
//!
//! `open` publishes edition 1, `open_edition` one that was made before; each makes a `Press` and some `View`s.
//! `Press::publish` publishes one more batch whole or not at all, and returns a `Receipt`: `prepare` makes the edition,
//! or says why not, and `show_prepared` shows it. `View::enter` gives an
//! `Entered` with one edition, whose history begins with all that the view has seen or learnt; `Entered::leave` gives
//! the view back. `meet` compares a view with a press, `may_enter` with a receipt. Read `specs/Publishing.antt` and
//! `specs/Sights.antt`.
//!
//! Contracts see a press, an entered view and a receipt as a history. What a view has seen is kept by the rule of
//! `left_right`; what it has learnt is kept as an edition, and `View::enter` compares its batches. `is_same` compares two
//! batches, and `starts_with` two histories, edit by edit and their strings byte by byte: read `specs/Beginnings.antt`.
//!
//! It does not promise that an entry succeeds, nor that a view that learns nothing sees a publish soon.

#![tactic(auto)]

mod edits;
mod fault;
mod histories;
mod learnt;
mod meeting;
mod prepared;
mod press;
mod receipt;
mod rule;
mod shown;
mod steps;
mod strings;
mod view;

pub use crate::fault::PublishError;
pub use crate::histories::{is_same, starts_with};
pub use crate::meeting::{may_enter, meet};
pub use crate::prepared::Prepared;
pub use crate::press::{Press, open, open_edition};
pub use crate::receipt::Receipt;
pub use crate::view::{Entered, View};
