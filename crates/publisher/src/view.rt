ghost use Rattle.std.specs.Prelude.{◌≡◌, ◌≤◌, ◌⊎◌, [], ◌∷◌, max, true, length, IfOk, IfErr};
ghost use Rattle.std.specs.Arc.{arc_value};
ghost use Rattle.left_right.specs.Sides.{view as heard_by};
ghost use Rattle.publisher.specs.Sights.{Allows, Learns, fresh};

use crate::learnt::Learnt;
use crate::receipt::Receipt;
use crate::rule::{Sees, ViewReader, ViewReading};
use editions::Edition;
use std::marker::Model;
use std::mem::replace;
use std::sync::Arc;

/// A worker's view of the published editions: what it has seen, and what it has learnt.
///
/// It may be moved to another thread.
pub struct View {
    reader: ViewReader,
    seen: u64,
    learnt: Learnt,
}

// Written out, so that no caller proves again how each part is dropped.
impl Drop for View {
    fn drop(self) {
        let View {
            reader: _,
            seen: _,
            learnt: _,
        } = self;
    }
}

impl Model for View {
    ghost use Rattle.std.specs.Prelude.{◌≡◌, ◌≤◌, false};
    ghost use Rattle.left_right.specs.Sides.{view as heard_by};
    ghost use Rattle.publisher.specs.Heard.{newest};
    ghost use Rattle.publisher.specs.Sights.{Sight};
    ghost use Rattle.publisher.specs.Learnt.{heard_with, is_lost};

    ghost Value = { Sight };

    ghost view = { λ v.
        record { heard = heard_with v.learnt (heard_by v.reader.place); lost = is_lost v.learnt; seen = v.seen } };

    ghost invariant = { λ v.
        is_lost v.learnt ≡ false → v.seen ≤ newest (heard_with v.learnt (heard_by v.reader.place)) };
}

/// A view that has entered an edition. It is not `Drop`: end it by `leave`.
///
/// While it exists, the publisher waits before it publishes for the second time.
pub struct Entered {
    reading: ViewReading,
}

impl Model for Entered {
    ghost use Rattle.std.specs.Prelude.{◌≡◌, [], ◌∷◌};
    ghost use Rattle.std.specs.Arc.{arc_value};
    ghost use Rattle.left_right.specs.Sides.{view as heard_by};
    ghost use Rattle.catalogue.specs.Histories.{History};

    ghost Value = { History };

    ghost view = { λ e. arc_value e.reading.part.value.edition };

    ghost invariant = { λ e. heard_by e.reading.place ≡ arc_value e.reading.part.value.edition ∷ [] };
}

impl View {
    // A view of a reader that has heard the edition alone.
    pub(crate) fn new(reader: ViewReader, edition: &Edition) -> View
        requires { heard_by reader.place ≡ edition.now ∷ [] }
        ensures { result ≡ fresh edition.now }
    {
        View {
            reader,
            seen: edition.number(),
            learnt: Learnt::Nothing,
        }
    }

    // rule: Entry of a view
    /// Enters the published edition, without waiting for the publisher and without memory.
    ///
    /// Its history begins with all that the view has seen or learnt. Returns the view if there is no entry: as it
    /// was if the press has ended; else lost, since the edition does not begin with what it has learnt. A lost view
    /// never enters again.
    pub fn enter(self) -> Result<Entered, View>
        ensures entered { IfOk result (λ e. Allows self e) }
        ensures rises { IfOk result (λ e. self.seen ≤ length e) }

        ensures back { IfErr result (λ v. (v ≡ self) ⊎ ((v.lost ≡ true) × (v.seen ≡ self.seen))) }
    {
        let View {
            reader,
            seen,
            learnt,
        } = self;
        let reading = match reader.enter_as::<Sees>() {
            Ok(reading) => reading,
            Err(reader) => return Err(View {
                reader,
                seen,
                learnt,
            }),
        };
        if learnt.fits(&reading.get().edition) {
            return Ok(Entered { reading });
        }
        Err(View {
            reader: reading.leave(),
            seen,
            learnt: Learnt::Lost,
        })
    }

    // Lets the view learn the history of an edition.
    pub(crate) fn hear(&mut self, edition: &Arc<Edition>)
        ensures seen { self.new.seen ≡ max self.old.seen (length (arc_value edition.now)) }
        ensures learnt { Learns self.old (arc_value edition.now) self.new }
    {
        let learnt = replace(&mut self.learnt, Learnt::Lost);
        self.learnt = learnt.with(edition);
        self.seen = self.seen.max(edition.number());
    }

    // rule: Learnt history
    /// Notes the view what was published: each later entry's history begins with the receipt's.
    ///
    /// Meant for a receipt of the same `open`. After one of another, the view is mostly lost: it enters nothing more.
    pub fn learn(&mut self, receipt: &Receipt)
        ensures seen { self.new.seen ≡ max self.old.seen (length receipt.now) }
        ensures learnt { Learns self.old receipt.now self.new }
    {
        self.hear(receipt.shared());
    }

    /// Returns the greatest number of an edition that the view has seen or learnt.
    pub fn seen(&self) -> u64
        ensures { result ≡ self.now.seen }
    {
        self.seen
    }
}

impl Entered {
    /// Borrows the edition.
    pub fn edition(&self) -> &Edition
        ensures { result.now ≡ self.now }
    {
        &self.reading.get().edition
    }

    // rule: Entry of a view
    /// Leaves the edition, and gives the view back, which has seen just its history.
    pub fn leave(self) -> View
        ensures { result ≡ fresh self }
    {
        let seen = self.edition().number();
        let Entered { reading } = self;
        View {
            reader: reading.leave(),
            seen,
            learnt: Learnt::Nothing,
        }
    }
}
