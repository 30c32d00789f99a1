//! The first wrong row of a table, searched for by several threads.

ghost use Rattle.std.specs.Prelude.{◌≡◌, ◌↔◌, ◌+◌, ◌<◌, ◌≤◌, IfErr, IfOk, IsOk, IsTrue, MatchOption, length};
ghost use Rattle.price_cert.specs.Best.{ArePricesSmall};
ghost use Rattle.price_cert.specs.Laws.{ArePrices};
ghost use Rattle.price_cert.specs.Rules.{AreCertified, IsFirstWrong};
ghost use Rattle.omaha_commands.specs.Pieces.{AreUnbroken, IsPieceUnbroken};

use crate::reports::pieces::{
    PIECES, are_prices_small, is_piece_unbroken, unbroken_above, unbroken_below,
};
use payload_graph::Graph;
use price_cert::{Certified, Prices, Row, Wrong, broken_at, check, into_certified};
use rayon::current_num_threads;
use rayon::prelude::*;
use std::thread::Threads;

/// The number of rows from which on the threads cost less than they save.
const MIN_ROWS: usize = 384;

// Whether each piece names the best payloads, each tested by a thread.
fn are_pieces_unbroken(rt: &(impl Threads + Sync), graph: &Graph, rows: &[Row]) -> bool
    requires sized { length rows.now ≡ length graph.now.doors }
    requires small { ArePricesSmall rows.now }
    ensures { IsTrue result → AreUnbroken graph.now rows.now 0 graph.now.target × AreUnbroken graph.now rows.now (graph.now.target + 1) (length rows.now) }
{
    (0..PIECES).into_par_iter().with_min_len(1).all(
        rt,
        |piece: usize| -> bool
            requires sized { length rows.now ≡ length graph.now.doors }
            requires small { ArePricesSmall rows.now }
            requires piece { piece < 2 }
            ensures { IsTrue result → IsPieceUnbroken graph.entry.now rows.entry.now piece }
        { is_piece_unbroken(graph, rows, piece) },
    )
}

// Whether a table of best payloads is found by threads.
fn passes_in_pieces(rt: &(impl Threads + Sync), graph: &Graph, rows: &[Row]) -> bool
    requires sized { length rows.now ≡ length graph.now.doors }
    requires small { ArePricesSmall rows.now }
    ensures { IsTrue result → AreCertified graph.now rows.now }
{
    let _bounded = graph.doors();
    if rows.len() < MIN_ROWS || current_num_threads(rt) == 1 {
        return false;
    }
    rows[graph.target()] == Row::End && are_pieces_unbroken(rt, graph, rows)
}

// From which index on all rows name the best payloads, or the end at the target.
fn unbroken_from(graph: &Graph, rows: &[Row]) -> usize
    requires sized { length rows.now ≡ length graph.now.doors }
    requires small { ArePricesSmall rows.now }
    ensures within { result ≤ length rows.now }
    ensures unbroken { AreUnbroken graph.now rows.now result (length rows.now) }
{
    let _bounded = graph.doors();
    let target = graph.target();
    let above = unbroken_above(graph, rows, target + 1, rows.len());
    if above > target + 1 {
        return above;
    }
    if rows[target] != Row::End {
        return target + 1;
    }
    unbroken_below(graph, rows, 0, target)
}

// The first wrong row, of which it is known that it is before an index.
fn first_wrong(graph: &Graph, rows: &[Row], end: usize) -> Option<Wrong>
    requires sized { length rows.now ≡ length graph.now.doors }
    requires within { end ≤ length rows.now }
    requires unbroken { AreUnbroken graph.now rows.now end (length rows.now) }
    ensures { MatchOption result (AreCertified graph.now rows.now) (IsFirstWrong graph.now rows.now) }
{
    for from in (0..end).rev() {
        if let Some(rule) = broken_at(graph, rows, from) {
            return Some(Wrong { row: from, rule });
        }
    }
    None
}

// The first wrong row of a table whose prices are small.
fn find_wrong(rt: &(impl Threads + Sync), graph: &Graph, rows: &[Row]) -> Option<Wrong>
    requires sized { length rows.now ≡ length graph.now.doors }
    requires small { ArePricesSmall rows.now }
    ensures { MatchOption result (AreCertified graph.now rows.now) (IsFirstWrong graph.now rows.now) }
{
    if passes_in_pieces(rt, graph, rows) {
        None
    } else {
        first_wrong(graph, rows, unbroken_from(graph, rows))
    }
}

// rule: Certified table
/// Checks a table of prices against the graph of its track, and returns what `check` of `price_cert` does.
///
/// The table has the graph's key and a row for each release. If there are several processors and at least 384
/// rows, two threads test a half of the rows each, in one go along the releases. If a row doesn't pass, the calling
/// thread goes along all of them, from the highest version, until it finds the first wrong row. So a wrong table takes
/// as few steps as a right one. If a price is above that of 511 packages of the largest size, it calls `check`. It
/// takes no memory.
pub fn check_parallel(
    rt: &(impl Threads + Sync),
    graph: &Graph,
    prices: Prices,
) -> Result<Certified, (Wrong, Prices)>
    requires key { prices.key ≡ graph.now.key }
    requires sized { length prices.rows ≡ length graph.now.doors }
    ensures succeeds { IsOk result ↔ AreCertified graph.now prices.rows }
    ensures graph { IfOk result (λ certified. certified.net ≡ graph.now) }
    ensures rows { IfOk result (λ certified. certified.rows ≡ prices.rows) }
    ensures least { IfOk result (λ certified. ArePrices certified.net certified.rows) }
    ensures wrong { IfErr result (λ refusal. IsFirstWrong graph.now prices.rows refusal.0) }
    ensures given_back { IfErr result (λ refusal. refusal.1 ≡ prices) }
{
    if !are_prices_small(prices.rows.as_slice()) {
        return check(graph, prices);
    }
    match find_wrong(rt, graph, prices.rows.as_slice()) {
        Some(wrong) => Err((wrong, prices)),
        None => Ok(into_certified(graph, prices)),
    }
}
