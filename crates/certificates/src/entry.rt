//! The line of a release.

ghost use Rattle.std.specs.Prelude.{◌≡◌, codes, position};
ghost use Rattle.certificates.specs.Reading.{entry_of, is_entry, is_payload, is_row, is_spelled, kind_named, payload_of, read_row, row_of};

use crate::fault::Flaw;
use crate::form::{is_either, is_version, number_below, split_first};
use crate::lines::as_string;
use catalogue::Release;
use payload_graph::Kind;
use price_cert::Row;

const PRICE_BOUND: u64 = 1 << 50;

fn is_payload(entry: &str) -> bool
    ensures { result ≡ is_payload entry.now }
{
    let (price, others) = split_first(entry);
    let (kind, version) = split_first(others);
    number_below(PRICE_BOUND, price).is_some()
        && is_either("full", "diff", kind)
        && is_version(version)
}

fn is_entry(entry: &str) -> bool
    ensures { result ≡ is_entry entry.now }
{
    is_either("none", "0 end", entry) || is_payload(entry)
}

fn is_row(line: &str) -> bool
    ensures { result ≡ is_row line.now }
{
    let (version, entry) = split_first(line);
    is_version(version) && is_entry(entry)
}

fn kind_named(word: &str) -> Kind
    ensures { result ≡ kind_named word.now }
{
    if word == "full" {
        Kind::Full
    } else {
        Kind::Differ
    }
}

fn find_spelled(releases: &[Release], spelled: &str) -> Option<usize>
    ensures { result ≡ position (is_spelled spelled.now) releases.now }
{
    releases
        .iter()
        .position(|release| spelled == release.spelled.as_str())
}

fn payload_of(releases: &[Release], entry: &str) -> Option<Row>
    ensures { result ≡ payload_of releases.now entry.now }
{
    let (price, others) = split_first(entry);
    let (kind, version) = split_first(others);
    let price = number_below(PRICE_BOUND, price)?;
    let to = find_spelled(releases, version)?;
    Some(Row::Price {
        price,
        kind: kind_named(kind),
        to,
    })
}

fn entry_of(releases: &[Release], entry: &str) -> Option<Row>
    ensures { result ≡ entry_of releases.now entry.now }
{
    match entry {
        "none" => Some(Row::Nothing),
        "0 end" => Some(Row::End),
        _ => payload_of(releases, entry),
    }
}

fn row_of(releases: &[Release], spelled: &str, line: &str) -> Option<Row>
    ensures { result ≡ row_of releases.now spelled.now line.now }
{
    let (version, entry) = split_first(line);
    if version == spelled {
        entry_of(releases, entry)
    } else {
        None
    }
}

// rule: Line of a release
/// Reads the line of a release that has this spelling.
pub(crate) fn read_row(releases: &[Release], spelled: &str, line: &[u8]) -> Result<Row, Flaw>
    ensures { result ≡ read_row releases.now spelled.now line.now }
{
    let Some(line) = as_string(line) else {
        return Err(Flaw::Form);
    };
    if !is_row(line) {
        return Err(Flaw::Form);
    }
    match row_of(releases, spelled, line) {
        Some(row) => Ok(row),
        None => Err(Flaw::Other),
    }
}
