//! The better one of two payloads.

ghost use Rattle.std.specs.Prelude.{◌≡◌, true};
ghost use Rattle.catalogue.specs.Forms.{is_size};
ghost use Rattle.price_cert.specs.Best.{improved, is_better, is_kind_better, is_nearer, is_still_open, leads_higher, nearest_row, taken, ArePricesSmall};

use crate::row::{Row, row_at};
use payload_graph::{Door, Edge, Kind};

fn is_kind_better(kind: Kind, other: Kind) -> bool
    ensures { result ≡ is_kind_better kind other }
{
    match kind {
        Kind::Full => matches!(other, Kind::Differ),
        Kind::Differ => false,
    }
}

fn leads_higher(edge: &Edge, kind: Kind, to: usize) -> bool
    ensures { result ≡ leads_higher edge.now kind to }
{
    to < edge.to || (to == edge.to && is_kind_better(kind, edge.kind))
}

fn is_better(row: Row, sum: u64, edge: &Edge) -> bool
    ensures { result ≡ is_better row sum edge.now }
{
    match row {
        Row::Nothing => true,
        Row::End => false,
        Row::Price { price, kind, to } => {
            sum < price || (sum == price && leads_higher(edge, kind, to))
        }
    }
}

// rule: Best payload
/// The row of the better one of a row's payload and another one.
pub(crate) fn improved(rows: &[Row], row: Row, edge: &Edge) -> Row
    requires small { ArePricesSmall rows.now }
    requires sized { is_size edge.now.bytes ≡ true }
    ensures { result ≡ improved rows.now row edge.now }
{
    let Some(rest) = row_at(rows, edge.to).price() else {
        return row;
    };
    let sum = edge.bytes + rest;
    if is_better(row, sum, edge) {
        Row::Price {
            price: sum,
            kind: edge.kind,
            to: edge.to,
        }
    } else {
        row
    }
}

/// The same of the full package through a door, if the door opens from the release.
pub(crate) fn taken(rows: &[Row], row: Row, from: usize, door: &Door) -> Row
    requires small { ArePricesSmall rows.now }
    requires sized { is_size door.now.bytes ≡ true }
    ensures { result ≡ taken rows.now row from door.now }
{
    if door.opens(from) {
        let edge = Edge {
            from,
            to: door.to,
            kind: Kind::Full,
            bytes: door.bytes,
        };
        improved(rows, row, &edge)
    } else {
        row
    }
}

/// Whether the door that a row leads through also opens from a release; true of a row without a payload.
pub(crate) fn is_still_open(doors: &[Door], from: usize, row: Row) -> bool
    ensures { result ≡ is_still_open doors.now from row }
{
    match row {
        Row::Price { to, .. } => match doors.get(to) {
            Some(door) => door.opens(from),
            None => false,
        },
        _ => true,
    }
}

/// The destination of the best full package so far.
#[derive(Clone, Copy)]
pub(crate) struct Nearest {
    /// The bytes of its full package and its price; `u64::MAX` if there is none, more than any sum.
    pub(crate) sum: u64,
    /// Its index.
    pub(crate) to: usize,
}

/// The row that names the nearest destination.
pub(crate) fn nearest_row(nearest: Nearest) -> Row
    ensures { result ≡ nearest_row nearest }
{
    if nearest.sum == u64::MAX {
        Row::Nothing
    } else {
        Row::Price {
            price: nearest.sum,
            kind: Kind::Full,
            to: nearest.to,
        }
    }
}

fn is_nearer(nearest: Nearest, sum: u64, to: usize) -> bool
    ensures { result ≡ is_nearer nearest sum to }
{
    sum < nearest.sum || (sum == nearest.sum && nearest.to < to)
}

/// The nearer one of a destination and a door, if the door opens from the release.
pub(crate) fn nearer(rows: &[Row], nearest: Nearest, from: usize, door: &Door) -> Nearest
    requires small { ArePricesSmall rows.now }
    requires sized { is_size door.now.bytes ≡ true }
    ensures { nearest_row result ≡ taken rows.now (nearest_row nearest) from door.now }
{
    if !door.opens(from) {
        return nearest;
    }
    let Some(rest) = row_at(rows, door.to).price() else {
        return nearest;
    };
    let sum = door.bytes + rest;
    if is_nearer(nearest, sum, door.to) {
        Nearest { sum, to: door.to }
    } else {
        nearest
    }
}
