//! The tables and keys that paths name.

ghost use Rattle.std.specs.Prelude.{◌≡◌, ◌≤◌, IfSome, codes, length, map, option_map, Some};
ghost use Rattle.std.specs.List.{after_first, before_first};
ghost use Rattle.advice.specs.Spots.{app_end, first_below, first_in, found_at, found_from, is_close, is_dot, is_open, spot_at, spot_below, spot_by, spot_in, spot_of, spot_seen, step_of, step_seen, value_found, verb_at};
ghost use Rattle.advice.specs.Places.{found_seen, string_in};
ghost use Rattle.advice.specs.Tables.{inner_kind, outer_kind};

use crate::places::{FoundKey, header_from, key_from, string_in};
use crate::tables::{Kind, header_of, inner_kind, outer_kind};
use omaha_arguments::number_of;

// A step of a path.
#[derive(Clone, Copy)]
pub(crate) struct PathStep<'p> {
    pub name: &'p str,
    pub index: usize,
    pub rest: &'p str,
}

// What is before the first `[`, and after it.
fn split_open(path: &str) -> (&str, &str)
    ensures before { result.0.now ≡ before_first is_open path.now }
    ensures after { result.1.now ≡ after_first is_open path.now }
{
    match path.split_once('[') {
        Some(parts) => parts,
        None => (path, ""),
    }
}

// What is before the first `]`, and after it.
fn split_close(path: &str) -> (&str, &str)
    ensures before { result.0.now ≡ before_first is_close path.now }
    ensures after { result.1.now ≡ after_first is_close path.now }
{
    match path.split_once(']') {
        Some(parts) => parts,
        None => (path, ""),
    }
}

fn after_dot(path: &str) -> &str
    ensures { result.now ≡ after_first is_dot path.now }
{
    match path.split_once('.') {
        Some((_before, after)) => after,
        None => "",
    }
}

// The first step of a path.
fn step_of(path: &str) -> Option<PathStep<'_>>
    ensures { option_map step_seen result ≡ step_of path.now }
{
    let (name, after) = split_open(path);
    let (digits, rest) = split_close(after);
    match number_of(digits) {
        None => None,
        Some(index) => Some(PathStep {
            name,
            index: index as usize,
            rest: after_dot(rest),
        }),
    }
}

/// A table's kind, the index of the line after its header, and a key in it.
#[derive(Clone, Copy)]
pub(crate) struct TableSpot<'p> {
    pub kind: Kind,
    pub first: Option<usize>,
    pub key: &'p str,
}

/// The index of the line after the header of a table.
#[tactic(auto, using(crate::proofs::PlaceLemmas::header_dropped))]
pub(crate) fn first_in(lines: &[&str], of: Kind, index: usize, from: usize) -> Option<usize>
    requires { from ≤ length lines.now }
    ensures is { result ≡ first_in (map (λ line. line.now) lines.now) of index from }
    ensures within { IfSome result (λ at. at ≤ length lines.now) }
{
    match header_from(lines, header_of(of), from, index) {
        Some(at) => Some(at + 1),
        None => None,
    }
}

// The index of the next app's header from a line on, else how many lines there are.
#[tactic(auto, using(crate::proofs::PlaceLemmas::header_dropped, crate::proofs::PlaceLemmas::lines_counted))]
fn app_end(lines: &[&str], from: usize) -> usize
    requires { from ≤ length lines.now }
    ensures is { result ≡ app_end (map (λ line. line.now) lines.now) from }
    ensures after { from ≤ result }
    ensures within { result ≤ length lines.now }
{
    match header_from(lines, header_of(Kind::App), from, 0) {
        Some(at) => at,
        None => lines.len(),
    }
}

// The index of the line after the header of a table of an app, before the next app's header.
#[tactic(auto, using(crate::proofs::PlaceLemmas::lines_taken))]
fn first_below(lines: &[&str], of: Kind, index: usize, from: Option<usize>) -> Option<usize>
    requires { IfSome from (λ at. at ≤ length lines.now) }
    ensures is { result ≡ first_below (map (λ line. line.now) lines.now) of index from }
    ensures within { IfSome result (λ at. at ≤ length lines.now) }
{
    match from {
        Some(from) => first_in(&lines[..app_end(lines, from)], of, index, from),
        None => None,
    }
}

// A table in a table of an app, or the table itself.
fn spot_below<'p>(
    lines: &[&str],
    of: Kind,
    first: Option<usize>,
    step: PathStep<'p>,
) -> TableSpot<'p>
    requires { IfSome first (λ at. at ≤ length lines.now) }
    ensures is { spot_seen result ≡ spot_below (map (λ line. line.now) lines.now) of first (step_seen step.entry) (inner_kind step.entry.name.now) }
    ensures within { IfSome result.first (λ at. at ≤ length lines.now) }
{
    match inner_kind(step.name) {
        None => TableSpot {
            kind: of,
            first,
            key: step.name,
        },
        Some(inner) => TableSpot {
            kind: inner,
            first: first_below(lines, inner, step.index, first),
            key: split_open(step.rest).0,
        },
    }
}

fn spot_in<'p>(lines: &[&str], of: Kind, first: Option<usize>, rest: &'p str) -> TableSpot<'p>
    requires { IfSome first (λ at. at ≤ length lines.now) }
    ensures is { spot_seen result ≡ spot_in (map (λ line. line.now) lines.now) of first rest.now (step_of rest.now) }
    ensures within { IfSome result.first (λ at. at ≤ length lines.now) }
{
    match step_of(rest) {
        None => TableSpot {
            kind: of,
            first,
            key: rest,
        },
        Some(step) => spot_below(lines, of, first, step),
    }
}

// A table of the document.
fn spot_at<'p>(lines: &[&str], document: Kind, path: &'p str, step: PathStep<'p>) -> TableSpot<'p>
    ensures is { spot_seen result ≡ spot_at (map (λ line. line.now) lines.now) document path.now (step_seen step.entry) (outer_kind step.entry.name.now) }
    ensures within { IfSome result.first (λ at. at ≤ length lines.now) }
{
    match outer_kind(step.name) {
        None => TableSpot {
            kind: document,
            first: None,
            key: path,
        },
        Some(of) => spot_in(lines, of, first_in(lines, of, step.index, 0), step.rest),
    }
}

// rule: Table of a path
/// The table and the key that a path names.
pub(crate) fn spot_of<'p>(lines: &[&str], document: Kind, path: &'p str) -> TableSpot<'p>
    ensures is { spot_seen result ≡ spot_of (map (λ line. line.now) lines.now) document path.now }
    ensures within { IfSome result.first (λ at. at ≤ length lines.now) }
{
    match step_of(path) {
        None => TableSpot {
            kind: document,
            first: Some(0),
            key: path,
        },
        Some(step) => spot_at(lines, document, path, step),
    }
}

/// The line of a key, from a line on that may be unknown.
#[tactic(auto, using(crate::proofs::PlaceLemmas::key_dropped))]
pub(crate) fn found_from<'t>(
    lines: &[&'t str],
    key: &str,
    first: Option<usize>,
) -> Option<FoundKey<'t>>
    requires { IfSome first (λ at. at ≤ length lines.now) }
    ensures { option_map found_seen result ≡ found_from (map (λ line. line.now) lines.now) key.now first }
{
    match first {
        Some(first) => key_from(lines, key, first),
        None => None,
    }
}

/// The value of a key, from a line on that may be unknown, or nothing.
pub(crate) fn value_from<'t>(lines: &[&'t str], key: &str, first: Option<usize>) -> &'t str
    requires { IfSome first (λ at. at ≤ length lines.now) }
    ensures { result.now ≡ value_found (found_from (map (λ line. line.now) lines.now) key.now first) }
{
    match found_from(lines, key, first) {
        Some(found) => found.value,
        None => "",
    }
}

/// The word after `do =`, or nothing.
pub(crate) fn verb_at<'t>(lines: &[&'t str], first: Option<usize>) -> &'t str
    requires { IfSome first (λ at. at ≤ length lines.now) }
    ensures { result.now ≡ string_in (value_found (found_from (map (λ line. line.now) lines.now) (codes "do") first)) }
{
    string_in(value_from(lines, "do", first))
}
