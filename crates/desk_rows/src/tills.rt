// A till in memory that grants nothing.

ghost use Rattle.std.specs.Prelude.{[]};

use catalogue::Mirror;
use mirror_ledger::Till;
use std::sync::Wait;
use streams::Trace;

/// A till without mirrors.
#[derive(Drop)]
pub(crate) struct EmptyTill {
    asks: Trace<(u64, Option<usize>)>,
    /// How often it was asked.
    pub(crate) count: u64,
    /// How many bytes it was asked for last.
    pub(crate) last: u64,
}

impl EmptyTill {
    /// Makes a till that was asked for nothing yet.
    pub(crate) fn new() -> EmptyTill {
        EmptyTill {
            asks: Trace::new(),
            count: 0,
            last: 0,
        }
    }
}

impl Till for EmptyTill {
    ghost mirrors = { λ _. [] };

    ghost asks = { λ till. till.asks };

    ghost alone = { λ _. ⊥ };

    fn given(&self) -> &[Mirror] {
        &[]
    }

    fn grant_first<R: Wait>(&mut self, _rt: &R, bytes: u64) -> Option<usize> {
        self.asks.push(&(bytes, None));
        self.count = self.count.saturating_add(1);
        self.last = bytes;
        None
    }
}
