ghost use Rattle.std.specs.Prelude.{◌≡◌, ◌++◌, ◌∷◌, []};

use std::marker::Model;
use std::snapshot::Snapshot;

#[derive(Drop)]
enum Entries<T> {
    Empty,
    Recorded(Snapshot<T>, Snapshot<Entries<T>>),
}

/// What has happened, in order, which contracts see as a list. It takes no memory.
pub struct Trace<T> {
    entries: Entries<T>,
}

// Written out, so that no caller proves again how each part is dropped.
impl<T: Drop> Drop for Trace<T> {
    fn drop(self) {
        let Trace { entries: _ } = self;
    }
}

impl<T> Model for Trace<T> {
    ghost use Rattle.std.specs.Prelude.{List};
    ghost use Rattle.streams.specs.Traces.{entries_of};

    ghost Value = { List T };

    ghost view = { λ trace. entries_of trace.entries };
}

impl<T> Trace<T> {
    /// Makes the trace of nothing.
    pub fn new() -> Trace<T>
        ensures { result ≡ [] }
    {
        Trace {
            entries: Entries::Empty,
        }
    }

    // rule: Entries of a trace
    /// Records one more entry, as it is at this call.
    pub fn push(&mut self, entry: &T)
        ensures { self.new ≡ self.old ++ entry.now ∷ [] }
    {
        let before = Snapshot::of(&self.entries);
        self.entries = Entries::Recorded(Snapshot::of(entry), before);
    }
}

impl Trace<u8> {
    // rule: Entries of a trace
    /// Records more bytes, in order.
    pub fn extend(&mut self, bytes: &[u8])
        ensures { self.new ≡ self.old ++ bytes.now }
    {
        for byte in bytes {
            self.push(byte);
        }
    }

    /// Records these bytes alone.
    pub fn of(bytes: &[u8]) -> Trace<u8>
        ensures { result ≡ bytes.now }
    {
        let mut trace = Trace::new();
        trace.extend(bytes);
        trace
    }
}
