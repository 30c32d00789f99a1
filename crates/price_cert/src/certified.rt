//! Tables of prices that passed the check.

ghost use Rattle.std.specs.Prelude.{◌≡◌, ◌↔◌, ◌<◌, length, IfErr, IfOk, IfSome, IsOk, MatchOption};
ghost use Rattle.price_cert.specs.Chains.{IsPriceOf};
ghost use Rattle.price_cert.specs.Laws.{ArePrices, AreSmall, IsSmall};
ghost use Rattle.price_cert.specs.Rows.{price_at};
ghost use Rattle.price_cert.specs.Rules.{AreCertified, IsFirstWrong};

use crate::kept::Kept;
use crate::passing::passes;
use crate::row::{Prices, Row, row_at};
use crate::rules::{Wrong, first_wrong};
use payload_graph::{Graph, TrackKey};
use std::alloc::AllocError;
use std::marker::Model;

/// A table of prices that passed the check, which contracts see with the graph that it was checked
/// against.
///
/// It keeps the table alone; the graph is there for contracts only.
pub struct Certified {
    prices: Prices,
    graph: Kept<Graph>,
}

// Written out, so that no caller proves again how each part is dropped.
impl Drop for Certified {
    fn drop(self) {
        let Certified {
            prices: _,
            graph: _,
        } = self;
    }
}

impl Model for Certified {
    ghost use Rattle.price_cert.specs.Tables.{Certificate, IsCertificate};

    ghost Value = { Certificate };

    ghost view = { λ c. record { net = c.graph.value; rows = c.prices.rows } };

    ghost invariant = { λ c. IsCertificate c.prices.key (record { net = c.graph.value; rows = c.prices.rows }) };
}

impl Certified {
    /// Borrows the rows, one for each release, by ascending version.
    pub fn rows(&self) -> &[Row]
        ensures rows { result.now ≡ self.now.rows }
        ensures certified { AreCertified self.now.net self.now.rows }
        ensures least { ArePrices self.now.net self.now.rows }
        ensures small { AreSmall self.now.net self.now.rows }
    {
        crate::laws::least();
        crate::laws::small();
        self.prices.rows.as_slice()
    }

    /// Returns the key of the track.
    pub fn key(&self) -> TrackKey
        ensures { result ≡ self.now.net.key }
    {
        self.prices.key
    }

    // rule: Least sum
    /// Returns the least sum of bytes from a release to the target, `None` if no chain leads there.
    ///
    /// The release is given by its index, which is in range. The sum is at most 511 times 2^40.
    pub fn least_sum(&self, release: usize) -> Option<u64>
        requires { release < length self.now.rows }
        ensures price { result ≡ price_at self.now.rows release }
        ensures least { IsPriceOf self.now.net release result }
        ensures small { IfSome result IsSmall }
    {
        row_at(self.rows(), release).price()
    }

    /// Makes an equal table that shares its rows with this one. If memory runs out, nothing changes.
    pub fn copy(&self) -> Result<Certified, AllocError>
        ensures { IfOk result (λ copied. copied ≡ self.now) }
    {
        let rows = self.prices.rows.clone()?;
        Ok(Certified {
            prices: Prices {
                key: self.prices.key,
                rows,
            },
            graph: self.graph.copy(),
        })
    }

    /// Gives the table back; whoever takes it may change it, and changes no copy.
    pub fn into_prices(self) -> Prices
        ensures key { result.key ≡ self.net.key }
        ensures rows { result.rows ≡ self.rows }
    {
        let Certified { prices, graph: _ } = self;
        prices
    }
}

// The first wrong row, which is sought only if the table doesn't pass in one go.
fn find_wrong(graph: &Graph, rows: &[Row]) -> Option<Wrong>
    requires { length rows.now ≡ length graph.now.doors }
    ensures { MatchOption result (AreCertified graph.now rows.now) (IsFirstWrong graph.now rows.now) }
{
    if passes(graph, rows) {
        None
    } else {
        first_wrong(graph, rows)
    }
}

/// Makes a certified table of one of which it is known that no row breaks a rule.
///
/// The table has the graph's key. It takes no memory.
pub fn into_certified(graph: &Graph, prices: Prices) -> Certified
    requires key { prices.key ≡ graph.now.key }
    requires certified { AreCertified graph.now prices.rows }
    ensures graph { result.net ≡ graph.now }
    ensures rows { result.rows ≡ prices.rows }
    ensures least { ArePrices result.net result.rows }
{
    crate::laws::least();
    let _within = graph.target();
    let _numbered = graph.doors();
    let _nearing = graph.differs();
    Certified {
        prices,
        graph: Kept::of(graph),
    }
}

// rule: Certified table
/// Checks a table of prices against the graph of its track.
///
/// The table has the graph's key and a row for each release. If a row breaks a rule, it returns the
/// first such row from the highest version, with the first rule that it breaks, and gives the table
/// back. It takes no memory. A right table takes a step for each release and each differential; each
/// release that is below the floor of the best full package after it takes a step for each release of
/// its window.
pub fn check(graph: &Graph, prices: Prices) -> Result<Certified, (Wrong, Prices)>
    requires key { prices.key ≡ graph.now.key }
    requires sized { length prices.rows ≡ length graph.now.doors }
    ensures succeeds { IsOk result ↔ AreCertified graph.now prices.rows }
    ensures graph { IfOk result (λ certified. certified.net ≡ graph.now) }
    ensures rows { IfOk result (λ certified. certified.rows ≡ prices.rows) }
    ensures least { IfOk result (λ certified. ArePrices certified.net certified.rows) }
    ensures wrong { IfErr result (λ refusal. IsFirstWrong graph.now prices.rows refusal.0) }
    ensures given_back { IfErr result (λ refusal. refusal.1 ≡ prices) }
{
    match find_wrong(graph, prices.rows.as_slice()) {
        Some(wrong) => Err((wrong, prices)),
        None => Ok(into_certified(graph, prices)),
    }
}
