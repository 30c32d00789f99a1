//! Tables of prices.

ghost use Rattle.std.specs.Prelude.{◌≡◌};
ghost use Rattle.price_cert.specs.Rows.{price_of, row_at};

use payload_graph::{Kind, TrackKey};
use values::SharedItems;

/// What a table states of a release.
#[derive(Clone, Copy, PartialEq, Eq)]
pub enum Row {
    /// No chain leads from the release to the target.
    Nothing,
    /// The release is the target.
    End,
    /// The least sum of bytes of a chain to the target, and that chain's first payload.
    Price {
        /// The sum, in bytes.
        price: u64,
        /// Whether the first payload is a full package or a differential.
        kind: Kind,
        /// The index of the release that it leads to.
        to: usize,
    },
}

impl Row {
    /// Returns the price: 0 at the target, `None` if no chain leads there.
    pub fn price(&self) -> Option<u64>
        ensures { result ≡ price_of self.now }
    {
        match self {
            Row::Nothing => None,
            Row::End => Some(0),
            Row::Price { price, .. } => Some(*price),
        }
    }
}

/// The row of a release; a release that isn't there has nothing.
pub(crate) fn row_at(rows: &[Row], release: usize) -> Row
    ensures { result ≡ row_at rows.now release }
{
    match rows.get(release) {
        Some(row) => *row,
        None => Row::Nothing,
    }
}

/// A table of prices for the clients of a track.
pub struct Prices {
    /// The key of the track.
    pub key: TrackKey,
    /// A row for each release of the app, by ascending version; copies of a table share them.
    pub rows: SharedItems<Row>,
}

// Written out, so that no caller proves again how each part is dropped.
impl Drop for Prices {
    fn drop(self) {
        let Prices { key: _, rows: _ } = self;
    }
}
