//! What is counted of a connection.

ghost use Rattle.std.specs.Prelude.{◌≡◌, false};
ghost use Rattle.tallies.specs.Visits.{gauge_of, is_active};

use crate::cell::Cell;
use crate::codes::position_of;
use crate::sight::StatusSight;
use crate::tally::Tally;

/// What was seen of a connection that is open.
#[derive(Clone, Copy, Drop)]
pub struct Visit {
    is_active: bool,
    reply: StatusSight,
}

// rule: Cell of a connection
// The cell that counts a connection.
fn gauge_of(is_active: bool) -> Cell
    ensures { result ≡ gauge_of is_active }
{
    if is_active { Cell::Active } else { Cell::Idle }
}

// Whether a connection is active by the bytes that wait, after the last whole reply.
fn is_active(waiting: &[u8]) -> bool
    ensures { result ≡ is_active waiting.now }
{
    !waiting.is_empty()
}

impl Visit {
    /// Counts a connection that was accepted.
    pub fn open(tally: &Tally) -> Visit {
        tally.add(gauge_of(false), 1);
        Visit {
            is_active: false,
            reply: StatusSight::new(),
        }
    }

    /// Notes the bytes that wait, after the last whole reply: the first of the next message, or none.
    pub fn begin(&mut self, tally: &Tally, waiting: &[u8]) {
        let active = is_active(waiting);
        if active != self.is_active {
            tally.take(gauge_of(self.is_active), 1);
            tally.add(gauge_of(active), 1);
        }
        self.is_active = active;
        self.reply = StatusSight::new();
    }

    /// Notes bytes of the reply, and counts it once its status is written.
    pub fn write(&mut self, tally: &Tally, bytes: &[u8]) {
        if let Some(code) = self.reply.write(bytes) {
            if let Some(position) = position_of(code) {
                tally.add(Cell::Replies(position), 1);
            }
        }
    }

    /// Counts the end of the connection.
    pub fn end(self, tally: &Tally) {
        tally.take(gauge_of(self.is_active), 1);
    }
}
