//! How the clients of a track are named.

ghost use Rattle.std.specs.Prelude.{◌≡◌, IfOk, string_bytes};
ghost use Rattle.operator_pages.specs.Clients.{clients_string, downgrade_words, held_words, said_of};
ghost use Rattle.reviews.specs.Names.{reason_string};

use crate::app_sights::stuck::StuckAt;
use crate::sights::StuckClients;
use catalogue::App;
use cohorts::Lane;
use payload_graph::TrackKey;
use reviews::{Reason, cohort_name, spelled_at};
use std::alloc::{AllocError, Global};
use values::Text;

fn held_words(lane: Lane) -> &'static str
    ensures { result.now ≡ held_words lane }
{
    match lane {
        Lane::Target => "",
        Lane::Held => ", held",
    }
}

fn downgrade_words(rollback: bool) -> &'static str
    ensures { result.now ≡ downgrade_words rollback }
{
    if rollback { ", with downgrades" } else { "" }
}

// rule: Named clients
fn clients_string(alloc: Global, app: &App, key: &TrackKey) -> Result<String, AllocError>
    ensures { IfOk result (λ says. string_bytes says ≡ clients_string app.now key.now) }
{
    let cohort = cohort_name(app, key.cohort);
    let held = held_words(key.lane);
    let downgrade = downgrade_words(key.rollback);
    format!(in alloc; "{cohort}{held}{downgrade}")
}

fn reason_string(alloc: Global, reason: Reason) -> Result<String, AllocError>
    ensures { IfOk result (λ says. string_bytes says ≡ reason_string reason) }
{
    format!(in alloc; "{reason}")
}

/// How stuck clients are shown: the version of their release, who they are, and why they are stuck.
pub(crate) fn said_of(alloc: Global, app: &App, stuck: &StuckAt) -> Result<StuckClients, AllocError>
    ensures { IfOk result (λ said. said ≡ said_of app.now stuck.now) }
{
    let version = Text::copy_of(alloc, spelled_at(app, stuck.release))?;
    let clients = clients_string(alloc, app, &stuck.key)?;
    let reason = reason_string(alloc, stuck.reason)?;
    Ok(StuckClients {
        version,
        clients: Text::new(clients),
        reason: Text::new(reason),
    })
}
