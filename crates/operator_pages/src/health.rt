//! The pages of the server's health and of its status.

ghost use Rattle.std.specs.Prelude.{◌≡◌, ◌++◌, IfOk, OnOk, string_bytes};
ghost use Rattle.operator_pages.specs.Health.{health_string, reach_line, status_head, status_string, status_traffic};

use crate::shown::Shown;
use crate::spending::{Place, push_mirrors};
use std::alloc::{AllocError, Global};
use std::fmt::Write;

// rule: Health of a server
/// Writes the number of the published edition, as `edition 5`, and a line feed; then a line `history unreachable`, if it
/// is known since when no server of the history replies. Writes `stopping` alone if the server was asked to end.
///
/// Out of memory is the only error.
pub fn health_string(
    alloc: Global,
    edition: u64,
    lost: Option<u64>,
    ending: bool,
) -> Result<String, AllocError>
    ensures { IfOk result (λ text. string_bytes text ≡ health_string edition lost ending) }
{
    if ending {
        return String::from_str(alloc, "stopping\n");
    }
    match lost {
        None => format!(in alloc; "edition {edition}\n"),
        Some(_) => format!(in alloc; "edition {edition}\nhistory unreachable\n"),
    }
}

fn push_status_head(text: &mut String, edition: u64, started: u64) -> Result<(), AllocError>
    ensures { OnOk result (string_bytes text.new ≡ string_bytes text.old ++ status_head edition started) }
{
    write!(text, "edition {edition}\nstarted {started}\n")
}

fn push_status_traffic(text: &mut String, address: &str, replies: u64) -> Result<(), AllocError>
    ensures { OnOk result (string_bytes text.new ≡ string_bytes text.old ++ status_traffic address.now replies) }
{
    write!(text, "address {address}\nreplies {replies}\n")
}

fn push_reach(text: &mut String, lost: Option<u64>) -> Result<(), AllocError>
    ensures { OnOk result (string_bytes text.new ≡ string_bytes text.old ++ reach_line lost) }
{
    match lost {
        None => Ok(()),
        Some(since) => write!(text, "history unreachable since {since}\n"),
    }
}

// rule: Status of a server
/// Writes the number of the published edition, when the server started, the clients' address, how many replies clients
/// got, and a line for each mirror, as `m0 1000 of 2000000`: the bytes that it granted so far, of its present budget.
/// Before the mirrors is a line as `history unreachable since 1764340000`, if no server of the history replies.
///
/// Out of memory is the only error.
pub fn status_string(alloc: Global, shown: &Shown<'_>) -> Result<String, AllocError>
    ensures { IfOk result (λ text. string_bytes text ≡ status_string shown.now) }
{
    let mut text = String::new(alloc);
    push_status_head(&mut text, shown.edition, shown.counts.started)?;
    push_status_traffic(&mut text, shown.address, shown.totals.all_replies())?;
    push_reach(&mut text, shown.counts.lost)?;
    push_mirrors(
        alloc,
        &mut text,
        Place::Status,
        shown.mirrors,
        shown.granted,
    )?;
    Ok(text)
}
