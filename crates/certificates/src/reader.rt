//! How a certificate is read.

ghost use Rattle.std.specs.Prelude.{◌≡◌, ◌≤◌, length, IfOk, Some};
ghost use Rattle.values.specs.Reading.{Reads};
ghost use Rattle.payload_graph.specs.Net.{net_among};
ghost use Rattle.cohorts.specs.declared.pin.Pin.TheVariants as pin;
ghost use Rattle.certificates.specs.Headings.{headings};
ghost use Rattle.certificates.specs.Reading.{prices_of_string, read_headings, read_rows, read_body};

use crate::entry::read_row;
use crate::fault::Fault;
use crate::heading::{HEADINGS, flaw_of, line_of};
use crate::lines::split_line;
use crate::track::find_track;
use catalogue::{App, Catalogue, Cohort, Release};
use payload_graph::{Graph, TrackKey};
use price_cert::{Prices, Row};
use std::alloc::Global;
use values::{Items, ReadError, SharedItems};

fn read_headings<'a>(
    alloc: Global,
    app: &App,
    cohort: &Cohort,
    key: &TrackKey,
    target: &Release,
    text: &'a [u8],
) -> Result<&'a [u8], ReadError<Fault>>
    ensures { Reads (λ rest. rest.now) result (read_headings app.now cohort.now key.now target.now headings 1 text.now) }
{
    let mut rest = text;
    for index in 0..HEADINGS.len() {
        let heading = HEADINGS[index];
        let Some((line, after)) = split_line(rest) else {
            return Err(ReadError::Fault(Fault::BadLine { n: index + 1 }));
        };
        let wanted = line_of(alloc, app, cohort, key, target, heading)?;
        if let Some(flaw) = flaw_of(heading, line, wanted.as_str()) {
            return Err(ReadError::Fault(flaw.at(index + 1)));
        }
        rest = after;
    }
    Ok(rest)
}

fn read_rows(
    alloc: Global,
    releases: &[Release],
    text: &[u8],
) -> Result<Items<Row>, ReadError<Fault>>
    requires { length releases.now ≤ 512 }
    ensures { Reads (λ rows. rows) result (read_rows releases.now releases.now 8 text.now) }
{
    let mut rows = Items::empty(alloc);
    let mut rest = text;
    for index in 0..releases.len() {
        let Some((line, after)) = split_line(rest) else {
            return Err(ReadError::Fault(Fault::BadLine { n: index + 8 }));
        };
        match read_row(releases, releases[index].spelled.as_str(), line) {
            Ok(row) => rows.push(row)?,
            Err(flaw) => return Err(ReadError::Fault(flaw.at(index + 8))),
        }
        rest = after;
    }
    if !rest.is_empty() {
        let n = releases.len() + 8;
        return Err(ReadError::Fault(Fault::BadLine { n }));
    }
    Ok(rows)
}

// rule: Reading of a certificate
fn read_body(
    alloc: Global,
    app: &App,
    cohort: &Cohort,
    key: &TrackKey,
    target: &Release,
    text: &[u8],
) -> Result<Items<Row>, ReadError<Fault>>
    requires { length app.now.releases ≤ 512 }
    ensures { Reads (λ rows. rows) result (read_body app.now cohort.now key.now target.now text.now) }
{
    let rest = read_headings(alloc, app, cohort, key, target, text)?;
    read_rows(alloc, app.releases.as_slice(), rest)
}

// rule: Table of a certificate
/// Reads a table of a graph, which is that of its key's track in the catalogue; its clients have no pin.
///
/// The lines are those that `write_prices` writes of such a table. Otherwise it returns the first wrong
/// line: P1 `BadLine` if it is not well formed, is missing or is after the last one, else P2
/// `NotOfThisGraph` if it has another app, cohort, lane, downgrade, target, number of releases or version
/// than the graph, or leads to a version that is not one of its releases. It does not check the prices.
pub fn read_prices(
    alloc: Global,
    catalogue: &Catalogue,
    graph: &Graph,
    text: &[u8],
) -> Result<Prices, ReadError<Fault>>
    requires graph { net_among catalogue.now graph.now.key ≡ Some graph.now }
    requires pin { graph.now.key.pin ≡ pin.Any }
    ensures reads { Reads (λ prices. prices) result (prices_of_string catalogue.now graph.now text.now) }
    ensures key { IfOk result (λ prices. prices.key ≡ graph.now.key) }
    ensures sized { IfOk result (λ prices. length prices.rows ≡ length graph.now.doors) }
{
    let key = graph.key();
    let Some((app, cohort)) = find_track(catalogue, &key) else {
        return Err(ReadError::Fault(Fault::BadLine { n: 1 }));
    };
    let Some(target) = app.releases.as_slice().get(graph.target()) else {
        return Err(ReadError::Fault(Fault::BadLine { n: 1 }));
    };
    let body = read_body(alloc, app, cohort, &key, target, text)?;
    let rows = SharedItems::new(alloc, body.into_vec())?;
    Ok(Prices { key, rows })
}
