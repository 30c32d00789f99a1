//! The list of a worker's asks, for contracts, and how many bytes were always granted.

ghost use Rattle.std.specs.Prelude.{◌≡◌, ◌++◌, ◌∷◌, []};
ghost use Rattle.mirror_ledger.specs.Asks.{AreGrantedBelow};

use std::marker::Model;
use std::snapshot::Snapshot;

#[derive(Drop)]
enum Asks {
    Empty,
    Asked(u64, Option<usize>, Snapshot<Asks>),
}

/// The asks of a worker, which contracts see as a list: the bytes and the mirror that granted them.
///
/// It has room for the last ask; those before it are there for contracts only. Beside them it keeps the least bytes that
/// were rejected. It takes no memory.
pub struct AskList {
    asks: Asks,
    granted_below: u64,
}

// Written out, so that no caller proves again how each part is dropped.
impl Drop for AskList {
    fn drop(self) {
        let AskList {
            asks: _,
            granted_below: _,
        } = self;
    }
}

impl Model for AskList {
    ghost use Rattle.std.specs.Prelude.{ℕ, List, Option};
    ghost use Rattle.mirror_ledger.specs.Asks.{AreGrantedBelow, Ask, asks_of};

    ghost Value = { List Ask };

    ghost view = { λ list. asks_of list.asks };

    ghost invariant = { λ list. AreGrantedBelow list.granted_below (asks_of list.asks) };
}

impl AskList {
    /// Makes the list of no asks.
    pub(crate) fn new() -> AskList
        ensures { result ≡ [] }
    {
        AskList {
            asks: Asks::Empty,
            granted_below: u64::MAX,
        }
    }

    /// Adds an ask for bytes and the index of the mirror that granted them.
    pub(crate) fn push(&mut self, bytes: u64, granted: Option<usize>)
        ensures { self.new ≡ self.old ++ (bytes, granted) ∷ [] }
    {
        let AskList {
            asks,
            granted_below,
        } = self;
        let before = Snapshot::of(&*asks);
        *asks = Asks::Asked(bytes, granted, before);
        if granted.is_none() {
            *granted_below = bytes.min(*granted_below);
        }
    }

    /// Returns the least bytes that were rejected, `u64::MAX` if none were: each ask for fewer was granted.
    pub(crate) fn granted_below(&self) -> u64
        ensures { AreGrantedBelow result self.now }
    {
        self.granted_below
    }
}
