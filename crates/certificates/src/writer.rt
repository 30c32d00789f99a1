//! How a certificate is written.

ghost use Rattle.std.specs.Prelude.{◌≡◌, ◌<◌, ◌++◌, length, IfOk, OnOk, IsSome, Some};
ghost use Rattle.cohorts.specs.declared.pin.Pin.TheVariants as pin;
ghost use Rattle.certificates.specs.Headings.{headings};
ghost use Rattle.certificates.specs.Strings.{ended, entry_string, headings_string, kind_word, row_line, rows_from, spelled_at, string_among, string_of};

use crate::heading::{HEADINGS, line_of};
use crate::track::{find_target, find_track};
use catalogue::{App, Catalogue, Cohort, Release};
use payload_graph::{Kind, TrackKey};
use price_cert::{Prices, Row};
use std::alloc::{AllocError, Global};
use values::Text;

fn spelled_at(releases: &[Release], index: usize) -> &str
    ensures { result.now ≡ spelled_at releases.now index }
{
    match releases.get(index) {
        Some(release) => release.spelled.as_str(),
        None => "",
    }
}

fn kind_word(kind: Kind) -> &'static str
    ensures { result.now ≡ kind_word kind }
{
    match kind {
        Kind::Full => "full",
        Kind::Differ => "diff",
    }
}

fn entry_string(alloc: Global, releases: &[Release], row: Row) -> Result<Text, AllocError>
    ensures { IfOk result (λ entry. entry ≡ entry_string releases.now row) }
{
    let entry = match row {
        Row::Nothing => format!(in alloc; "none")?,
        Row::End => format!(in alloc; "0 end")?,
        Row::Price { price, kind, to } => {
            let word = kind_word(kind);
            let spelled = spelled_at(releases, to);
            format!(in alloc; "{price} {word} {spelled}")?
        }
    };
    Ok(Text::new(entry))
}

// rule: Row of a certificate
fn row_line(alloc: Global, releases: &[Release], index: usize, row: Row) -> Result<Text, AllocError>
    ensures { IfOk result (λ line. line ≡ row_line releases.now index row) }
{
    let entry = entry_string(alloc, releases, row)?;
    let spelled = spelled_at(releases, index);
    let stated = entry.as_str();
    let line = format!(in alloc; "{spelled} {stated}")?;
    Ok(Text::new(line))
}

fn push_line(text: &mut Vec<u8>, line: &str) -> Result<(), AllocError>
    ensures { OnOk result (text.new.items ≡ text.old.items ++ ended line.now) }
{
    text.extend_from_slice(line.as_bytes())?;
    text.push(b'\n')?;
    Ok(())
}

fn push_headings(
    alloc: Global,
    app: &App,
    cohort: &Cohort,
    key: &TrackKey,
    target: &Release,
    text: &mut Vec<u8>,
) -> Result<(), AllocError>
    ensures { OnOk result (text.new.items ≡ text.old.items ++ headings_string app.now cohort.now key.now target.now headings) }
{
    for index in 0..HEADINGS.len() {
        let line = line_of(alloc, app, cohort, key, target, HEADINGS[index])?;
        push_line(text, line.as_str())?;
    }
    Ok(())
}

fn push_rows(
    alloc: Global,
    releases: &[Release],
    rows: &[Row],
    text: &mut Vec<u8>,
) -> Result<(), AllocError>
    ensures { OnOk result (text.new.items ≡ text.old.items ++ rows_from releases.now 0 rows.now) }
{
    for index in 0..rows.len() {
        let line = row_line(alloc, releases, index, rows[index])?;
        push_line(text, line.as_str())?;
    }
    Ok(())
}

// rule: Bytes of a certificate
fn write_body(
    alloc: Global,
    app: &App,
    cohort: &Cohort,
    key: &TrackKey,
    target: &Release,
    rows: &[Row],
) -> Result<Vec<u8>, AllocError>
    ensures { IfOk result (λ text. text.items ≡ string_of app.now cohort.now key.now target.now rows.now) }
{
    let mut text = Vec::new(alloc);
    push_headings(alloc, app, cohort, key, target, &mut text)?;
    push_rows(alloc, app.releases.as_slice(), rows, &mut text)?;
    Ok(text)
}

// rule: Bytes of a certificate
/// Writes a table of a track that has a target, and whose clients have no pin.
///
/// Releases are named by the versions that they were added with. What is written is read back if the
/// table has a row for each release, prices below 2^50 and destinations that are releases. Out of memory is
/// the only error.
pub fn write_prices(
    alloc: Global,
    catalogue: &Catalogue,
    prices: &Prices,
) -> Result<Vec<u8>, AllocError>
    requires there { IsSome (string_among catalogue.now prices.now) }
    requires pin { prices.now.key.pin ≡ pin.Any }
    ensures { IfOk result (λ text. string_among catalogue.now prices.now ≡ Some text.items) }
{
    let Some((app, cohort)) = find_track(catalogue, &prices.key) else {
        unreachable!()
    };
    let Some(target) = find_target(app, cohort, &prices.key) else {
        unreachable!()
    };
    write_body(
        alloc,
        app,
        cohort,
        &prices.key,
        target,
        prices.rows.as_slice(),
    )
}
