//! The rule of the published edition, and its steps.

ghost use Rattle.std.specs.Prelude.{[], ◌++◌};
ghost use Rattle.std.specs.Arc.{arc_value};
ghost use Rattle.publisher.specs.Rule.{Keeps, Meets};

use crate::shown::Shown;
use atomic_table::{Join, Split};
use crossbeam_utils::rule::{Outcome, Protocol};
use editions::Edition;
use left_right::reader::{Reader, Reading};
use left_right::writer::Writer;
use std::sync::Arc;

/// The histories that a reader or the writer has heard. A clause reads an array as a list, of any length.
pub type Heard = [Edition; 0];

/// The writer of the published edition.
pub type PressWriter = Writer<Shown, Arc<Edition>, Heard, Published>;

/// A reader of the published edition.
pub type ViewReader = Reader<Shown, Heard, Published>;

/// A reader that is reading.
pub type ViewReading = Reading<Shown, Heard, Published>;

// rule: History of the published edition
/// The published history begins with each history that was heard.
pub struct Published;

impl Protocol<Shown, Heard> for Published {
    ghost holds = { λ x. Keeps (arc_value x.edition) };

    ghost first = { [] };
}

/// An entry or a publish: what is then published was heard.
pub struct Sees;

impl Outcome<Shown, Heard> for Sees {
    ghost then = { λ v _ y w. Meets v (arc_value y.edition) w };
}

/// What the writer has heard, for a new reader.
pub struct Notes;

impl Split<Heard> for Notes {
    ghost left = { λ v. v };

    ghost right = { λ v. v };
}

impl Join<Heard> for Notes {
    ghost both = { λ v w. v ++ w };

    ghost spent = { [] };
}
