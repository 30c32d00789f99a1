//! The rules that each row of a table is tested by.

ghost use Rattle.std.specs.Prelude.{◌≡◌, ◌<◌, length, MatchOption};
ghost use Rattle.price_cert.specs.Rows.{price_of};
ghost use Rattle.price_cert.specs.Rules.{adds_up, broken_alone, broken_at, broken_rule, comes_first, costs, ends_at_target, is_at_most, is_attained, is_bounded, is_bounded_to, is_first_or_larger, is_named, is_next, is_same_kind, meets_bounds, meets_bounds_to, yields, AreCertified, IsFirstWrong};

use crate::row::{Row, row_at};
use payload_graph::{Edge, Graph, Kind};

/// One of the rules of a row, in the order in which they are tested.
#[derive(Clone, Copy, Debug, PartialEq, Eq)]
pub enum Rule {
    /// The row is the end exactly at the target.
    C1,
    /// Each payload that leads to a priced release finds the row priced, at most at the payload's bytes
    /// and that release's price.
    C2,
    /// A price is the bytes of its payload, which is permitted, and the price of the release that the
    /// payload leads to.
    C3,
    /// That payload is the first one of that sum: the one that leads highest, and of two of these the
    /// differential.
    C4,
}

/// A wrong row of a table.
#[derive(Clone, Copy, PartialEq, Eq)]
pub struct Wrong {
    /// The index of its release.
    pub row: usize,
    /// The first rule that it breaks.
    pub rule: Rule,
}

// rule: End row
fn ends_at_target(target: usize, from: usize, row: Row) -> bool
    ensures { result ≡ ends_at_target target from row }
{
    match row {
        Row::End => from == target,
        _ => from != target,
    }
}

fn is_at_most(rest: Option<u64>, price: Option<u64>, bytes: u64) -> bool
    ensures { result ≡ is_at_most rest price bytes }
{
    let Some(rest) = rest else {
        return true;
    };
    match price {
        Some(price) => price <= bytes || price - bytes <= rest,
        None => false,
    }
}

fn is_bounded(rows: &[Row], row: Row, edge: &Edge) -> bool
    ensures { result ≡ is_bounded rows.now row edge.now }
{
    is_at_most(row_at(rows, edge.to).price(), row.price(), edge.bytes)
}

fn is_bounded_to(rows: &[Row], row: Row, to: usize, edge: &Edge) -> bool
    ensures { result ≡ is_bounded_to rows.now row to edge.now }
{
    edge.to != to || is_bounded(rows, row, edge)
}

// rule: Bounded pair
/// Whether each payload from a row's release to a release keeps C2.
pub(crate) fn meets_bounds_to(graph: &Graph, rows: &[Row], from: usize, row: Row, to: usize) -> bool
    requires { from < length graph.now.doors }
    ensures { result ≡ meets_bounds_to graph.now rows.now from row to }
{
    graph
        .edges_from(from)
        .all(|edge| is_bounded_to(rows, row, to, &edge))
}

// rule: Bounded price
fn meets_bounds(graph: &Graph, rows: &[Row], from: usize, row: Row) -> bool
    requires { from < length graph.now.doors }
    ensures { result ≡ meets_bounds graph.now rows.now from row }
{
    graph
        .edges_from(from)
        .all(|edge| is_bounded(rows, row, &edge))
}

fn adds_up(rest: Option<u64>, price: u64, bytes: u64) -> bool
    ensures { result ≡ adds_up rest price bytes }
{
    match rest {
        Some(rest) => bytes <= price && price - bytes == rest,
        None => false,
    }
}

fn costs(rows: &[Row], price: u64, edge: &Edge) -> bool
    ensures { result ≡ costs rows.now price edge.now }
{
    adds_up(row_at(rows, edge.to).price(), price, edge.bytes)
}

fn is_same_kind(kind: Kind, other: Kind) -> bool
    ensures { result ≡ is_same_kind kind other }
{
    match kind {
        Kind::Full => matches!(other, Kind::Full),
        Kind::Differ => matches!(other, Kind::Differ),
    }
}

fn is_named(kind: Kind, to: usize, edge: &Edge) -> bool
    ensures { result ≡ is_named kind to edge.now }
{
    edge.to == to && is_same_kind(kind, edge.kind)
}

fn is_next(rows: &[Row], price: u64, kind: Kind, to: usize, edge: &Edge) -> bool
    ensures { result ≡ is_next rows.now price kind to edge.now }
{
    is_named(kind, to, edge) && costs(rows, price, edge)
}

// rule: Attained price
fn is_attained(graph: &Graph, rows: &[Row], from: usize, row: Row) -> bool
    requires { from < length graph.now.doors }
    ensures { result ≡ is_attained graph.now rows.now from row }
{
    match row {
        Row::Price { price, kind, to } => graph
            .edges_from(from)
            .any(|edge| is_next(rows, price, kind, to, &edge)),
        _ => true,
    }
}

fn yields(edge: &Edge, kind: Kind, to: usize) -> bool
    ensures { result ≡ yields edge.now kind to }
{
    edge.to < to
        || (edge.to == to
            && (is_same_kind(kind, Kind::Differ) || is_same_kind(edge.kind, Kind::Full)))
}

fn is_first_or_larger(rows: &[Row], price: u64, kind: Kind, to: usize, edge: &Edge) -> bool
    ensures { result ≡ is_first_or_larger rows.now price kind to edge.now }
{
    !costs(rows, price, edge) || yields(edge, kind, to)
}

// rule: First payload
fn comes_first(graph: &Graph, rows: &[Row], from: usize, row: Row) -> bool
    requires { from < length graph.now.doors }
    ensures { result ≡ comes_first graph.now rows.now from row }
{
    match row {
        Row::Price { price, kind, to } => graph
            .edges_from(from)
            .all(|edge| is_first_or_larger(rows, price, kind, to, &edge)),
        _ => true,
    }
}

// rule: Broken rule
fn broken_rule(graph: &Graph, rows: &[Row], from: usize, row: Row) -> Option<Rule>
    requires { from < length graph.now.doors }
    ensures { result ≡ broken_rule graph.now rows.now from row }
{
    if !ends_at_target(graph.target(), from, row) {
        return Some(Rule::C1);
    }
    if !meets_bounds(graph, rows, from, row) {
        return Some(Rule::C2);
    }
    if !is_attained(graph, rows, from, row) {
        return Some(Rule::C3);
    }
    if !comes_first(graph, rows, from, row) {
        return Some(Rule::C4);
    }
    None
}

// rule: Broken rule of a row alone
/// The first of C1, C3 and C4 that the row of a release breaks.
pub(crate) fn broken_alone(graph: &Graph, rows: &[Row], from: usize, row: Row) -> Option<Rule>
    requires { from < length graph.now.doors }
    ensures { result ≡ broken_alone graph.now rows.now from row }
{
    if !ends_at_target(graph.target(), from, row) {
        return Some(Rule::C1);
    }
    if !is_attained(graph, rows, from, row) {
        return Some(Rule::C3);
    }
    if !comes_first(graph, rows, from, row) {
        return Some(Rule::C4);
    }
    None
}

/// The first rule that the row of a release breaks, in their order, `None` if it breaks none.
///
/// The release is given by its index, which is in range. It takes no memory.
pub fn broken_at(graph: &Graph, rows: &[Row], from: usize) -> Option<Rule>
    requires { from < length graph.now.doors }
    ensures { result ≡ broken_at graph.now rows.now from }
{
    broken_rule(graph, rows, from, row_at(rows, from))
}

// rule: First wrong row
/// The first wrong row of a table, from the highest version.
pub(crate) fn first_wrong(graph: &Graph, rows: &[Row]) -> Option<Wrong>
    requires { length rows.now ≡ length graph.now.doors }
    ensures { MatchOption result (AreCertified graph.now rows.now) (IsFirstWrong graph.now rows.now) }
{
    for from in (0..rows.len()).rev() {
        if let Some(rule) = broken_at(graph, rows, from) {
            return Some(Wrong { row: from, rule });
        }
    }
    None
}
