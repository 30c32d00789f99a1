//! The rows that name the best payloads of their releases, piece by piece.

ghost use Rattle.std.specs.Prelude.{◌≡◌, ◌+◌, ◌-◌, ◌^◌, ◌<◌, ◌≤◌, IsTrue, length};
ghost use Rattle.payload_graph.specs.Net.{fulls, window};
ghost use Rattle.price_cert.specs.Best.{lower, ArePricesSmall, IsBest, IsPriceSmall};
ghost use Rattle.omaha_commands.specs.Pieces.{bound_of, AreUnbroken, IsPieceUnbroken};

use payload_graph::Graph;
use price_cert::{Row, best_above, best_below, best_row, best_to_target};

/// How many pieces the rows below the target have, and those above it.
pub(crate) const PIECES: usize = 2;

/// The maximum price, which is that of 511 packages of the largest size.
const MAX_PRICE: u64 = 561850441793536;

fn is_price_small(row: &Row) -> bool
    ensures { IsTrue result → IsPriceSmall row.now }
{
    match row.price() {
        Some(price) => price <= MAX_PRICE,
        None => true,
    }
}

/// Whether sums with the table's prices fit into 64 bits.
pub(crate) fn are_prices_small(rows: &[Row]) -> bool
    ensures { IsTrue result → ArePricesSmall rows.now }
{
    rows.iter().all(|row| is_price_small(row))
}

// The best full package of a window at or below the target, by those of the windows above it.
fn best_of_window(graph: &Graph, rows: &[Row], from: usize) -> Row
    requires at { from ≤ graph.now.target }
    requires small { ArePricesSmall rows.now }
    ensures { IsBest rows.now (fulls from (window graph.now from)) result }
{
    payload_graph::laws::windows();
    let mut best = Row::Nothing;
    for index in (from..graph.target()).rev() {
        best = best_below(graph, rows, index, best);
    }
    best
}

/// From which index on the rows of a piece below the target name the best payloads: its first index if all do.
pub(crate) fn unbroken_below(graph: &Graph, rows: &[Row], low: usize, high: usize) -> usize
    requires sized { length rows.now ≡ length graph.now.doors }
    requires small { ArePricesSmall rows.now }
    requires piece { low ≤ high }
    requires below { high ≤ graph.now.target }
    ensures within { result ≤ high }
    ensures unbroken { AreUnbroken graph.now rows.now result high }
{
    let _within = graph.target();
    let mut best = best_of_window(graph, rows, high);
    for from in (low..high).rev() {
        best = best_below(graph, rows, from, best);
        if best_row(graph, rows, from, best) != rows[from] {
            return from + 1;
        }
    }
    low
}

// The best full package to the releases below one that is above the target.
fn best_down(graph: &Graph, rows: &[Row], from: usize) -> Row
    requires above { graph.now.target < from }
    requires there { from ≤ length graph.now.doors }
    requires small { ArePricesSmall rows.now }
    ensures { IsBest rows.now (fulls from (lower graph.now from)) result }
{
    let mut best = best_to_target(graph, rows);
    for index in graph.target() + 1..from {
        best = best_above(graph, rows, index, best);
    }
    best
}

/// The same of a piece above the target.
pub(crate) fn unbroken_above(graph: &Graph, rows: &[Row], low: usize, high: usize) -> usize
    requires sized { length rows.now ≡ length graph.now.doors }
    requires small { ArePricesSmall rows.now }
    requires piece { low ≤ high }
    requires above { graph.now.target < low }
    requires there { high ≤ length graph.now.doors }
    ensures within { result ≤ high }
    ensures unbroken { AreUnbroken graph.now rows.now result high }
{
    let _bounded = graph.doors();
    let mut best = best_down(graph, rows, low);
    let mut start = low;
    for from in low..high {
        if best_row(graph, rows, from, best) != rows[from] {
            start = from + 1;
        }
        best = best_above(graph, rows, from, best);
    }
    start
}

fn bound_of(count: usize, piece: usize) -> usize
    requires piece { piece ≤ 2 }
    requires few { count < 2 ^ 59 }
    ensures { result ≡ bound_of count piece }
{
    piece * count / PIECES
}

fn is_below_unbroken(graph: &Graph, rows: &[Row], piece: usize) -> bool
    requires sized { length rows.now ≡ length graph.now.doors }
    requires small { ArePricesSmall rows.now }
    requires piece { piece < 2 }
    ensures { IsTrue result → AreUnbroken graph.now rows.now (bound_of graph.now.target piece) (bound_of graph.now.target (piece + 1)) }
{
    let _bounded = graph.doors();
    let count = graph.target();
    let low = bound_of(count, piece);
    let high = bound_of(count, piece + 1);
    unbroken_below(graph, rows, low, high) == low
}

fn is_above_unbroken(graph: &Graph, rows: &[Row], piece: usize) -> bool
    requires sized { length rows.now ≡ length graph.now.doors }
    requires small { ArePricesSmall rows.now }
    requires piece { piece < 2 }
    ensures { IsTrue result → AreUnbroken graph.now rows.now
        (graph.now.target + 1 + bound_of (length rows.now - graph.now.target - 1) piece)
        (graph.now.target + 1 + bound_of (length rows.now - graph.now.target - 1) (piece + 1)) }
{
    let _bounded = graph.doors();
    let first = graph.target() + 1;
    let count = rows.len() - graph.target() - 1;
    let low = first + bound_of(count, piece);
    let high = first + bound_of(count, piece + 1);
    unbroken_above(graph, rows, low, high) == low
}

/// Whether the rows of a piece below the target, and those of a piece above it, name the best payloads.
pub(crate) fn is_piece_unbroken(graph: &Graph, rows: &[Row], piece: usize) -> bool
    requires sized { length rows.now ≡ length graph.now.doors }
    requires small { ArePricesSmall rows.now }
    requires piece { piece < 2 }
    ensures { IsTrue result → IsPieceUnbroken graph.now rows.now piece }
{
    is_below_unbroken(graph, rows, piece) && is_above_unbroken(graph, rows, piece)
}
