//! A table that passes the check, in one pass along the releases.

ghost use Rattle.std.specs.Prelude.{◌≡◌, ◌+◌, ◌<◌, IsTrue, length};
ghost use Rattle.price_cert.specs.Best.{AreBest, ArePricesSmall, IsPriceSmall};
ghost use Rattle.price_cert.specs.Rules.{AreCertified};

use crate::row::{Row, row_at};
use crate::windows::{best_above, best_below, best_row, best_to_target};
use payload_graph::{Graph, Kind};

/// What a price is at most, which is that of 511 packages of the largest size.
const MAX_PRICE: u64 = 561850441793536;

fn is_price_small(row: &Row) -> bool
    ensures { IsTrue result → IsPriceSmall row.now }
{
    match row.price() {
        Some(price) => price <= MAX_PRICE,
        None => true,
    }
}

fn are_prices_small(rows: &[Row]) -> bool
    ensures { IsTrue result → ArePricesSmall rows.now }
{
    rows.iter().all(|row| is_price_small(row))
}

fn is_same_kind(kind: Kind, other: Kind) -> bool
    ensures { IsTrue result → kind ≡ other }
{
    match kind {
        Kind::Full => matches!(other, Kind::Full),
        Kind::Differ => matches!(other, Kind::Differ),
    }
}

fn is_same(row: Row, other: Row) -> bool
    ensures { IsTrue result → row ≡ other }
{
    match row {
        Row::Nothing => matches!(other, Row::Nothing),
        Row::End => matches!(other, Row::End),
        Row::Price { price, kind, to } => match other {
            Row::Price {
                price: other_price,
                kind: other_kind,
                to: other_to,
            } => price == other_price && to == other_to && is_same_kind(kind, other_kind),
            _ => false,
        },
    }
}

// The rows below the target, from the target down.
fn pass_below(graph: &Graph, rows: &[Row]) -> bool
    requires { ArePricesSmall rows.now }
    ensures { IsTrue result → AreBest graph.now rows.now 0 graph.now.target }
{
    payload_graph::laws::windows();
    let _bounded = graph.doors();
    let mut best = Row::Nothing;
    for from in (0..graph.target()).rev() {
        best = best_below(graph, rows, from, best);
        if !is_same(best_row(graph, rows, from, best), row_at(rows, from)) {
            return false;
        }
    }
    true
}

// The rows above the target, upward.
fn pass_above(graph: &Graph, rows: &[Row]) -> bool
    requires { ArePricesSmall rows.now }
    ensures { IsTrue result → AreBest graph.now rows.now (graph.now.target + 1) (length graph.now.doors) }
{
    let _bounded = graph.doors();
    let mut best = best_to_target(graph, rows);
    for from in graph.target() + 1..graph.doors().len() {
        if !is_same(best_row(graph, rows, from, best), row_at(rows, from)) {
            return false;
        }
        best = best_above(graph, rows, from, best);
    }
    true
}

// rule: Table of best payloads
/// Whether each row but the target's names the best payload of its release, and that is the end.
///
/// Such a table is certified. The table has a row for each release of the graph. It takes no memory, and a step for
/// each release and each differential, and more if a floor ends the best full package.
pub fn passes(graph: &Graph, rows: &[Row]) -> bool
    requires { length rows.now ≡ length graph.now.doors }
    ensures { IsTrue result → AreCertified graph.now rows.now }
{
    if !are_prices_small(rows) {
        return false;
    }
    if !is_same(row_at(rows, graph.target()), Row::End) {
        return false;
    }
    if !pass_below(graph, rows) {
        return false;
    }
    pass_above(graph, rows)
}
