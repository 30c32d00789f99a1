//! Reports of reviews: what a change of a catalogue makes of its clients, and reviews as lines and as JSON objects.
//!
//! `changes` compares the reviews of two catalogues, which `reviews` makes: a `Change` says of the clients at a release
//! where they were and where they are. `cut_off_newcomers` finds the `Clients` without a release whom the change cuts off.
//! `write_review`, `write_changes` and `write_warnings` write them as lines, `write_review_objects` and
//! `write_change_objects` as JSON. Read `specs/Changes.antt` for changes and `specs/Newcomers.antt` for new clients;
//! `specs/ReviewLines.antt`, `specs/ChangeLines.antt` and `specs/Warnings.antt` have the lines, `specs/Lines.antt` the
//! form of each, and `specs/Objects.antt` and `specs/ChangeObjects.antt` the JSON objects.
//!
//! It reviews no catalogue, reads no file and prints nothing.

#![tactic(auto)]

mod change;
mod change_lines;
mod change_objects;
mod comparing;
mod line;
mod members;
mod newcomers;
mod objects;
mod review_lines;
mod stuck;
mod warnings;

pub use crate::change::{Change, Clients};
pub use crate::change_lines::{newly_stuck_total, write_changes};
pub use crate::change_objects::write_change_objects;
pub use crate::comparing::changes;
pub use crate::newcomers::cut_off_newcomers;
pub use crate::objects::write_review_objects;
pub use crate::review_lines::write_review;
pub use crate::stuck::stuck_total;
pub use crate::warnings::write_warnings;
