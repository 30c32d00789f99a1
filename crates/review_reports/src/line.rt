//! The lines of reviews.

ghost use Rattle.std.specs.Prelude.{◌≡◌, ◌++◌, IfOk, OnOk, option_map, slice_get, string_bytes};
ghost use Rattle.review_reports.specs.Lines.{downgrade_word, lane_word, line_string, stuck_release, track_string};

use crate::change::Clients;
use catalogue::{App, Catalogue};
use cohorts::Lane;
use reviews::{Reason, cohort_name, spelled_at};
use std::alloc::{AllocError, Global};

/// The word of a lane.
pub(crate) fn lane_word(lane: Lane) -> &'static str
    ensures { result.now ≡ lane_word lane }
{
    match lane {
        Lane::Target => "target",
        Lane::Held => "held",
    }
}

fn downgrade_word(downgrade: bool) -> &'static str
    ensures { result.now ≡ downgrade_word downgrade }
{
    if downgrade { "yes" } else { "no" }
}

/// The app at an index of a catalogue.
pub(crate) fn find_app(catalogue: &Catalogue, app: usize) -> Option<&App>
    ensures { option_map (λ found. found.now) result ≡ slice_get catalogue.now app }
{
    catalogue.apps().get(app)
}

/// Names a track by its app, its cohort, its lane, and whether its clients allow a downgrade.
pub(crate) fn track_string(
    alloc: Global,
    app: &App,
    clients: &Clients,
) -> Result<String, AllocError>
    ensures { IfOk result (λ track. string_bytes track ≡ track_string app.now clients.now) }
{
    let id = app.id.as_str();
    let cohort = cohort_name(app, clients.cohort);
    let lane = lane_word(clients.lane);
    let downgrade = downgrade_word(clients.rollback);
    format!(in alloc; "{id} {cohort} {lane} {downgrade}")
}

/// Says of a stuck release why it is stuck.
pub(crate) fn stuck_release(
    alloc: Global,
    app: &App,
    release: usize,
    reason: Reason,
) -> Result<String, AllocError>
    ensures { IfOk result (λ says. string_bytes says ≡ stuck_release app.now release reason) }
{
    let spelled = spelled_at(app, release);
    format!(in alloc; "{spelled}, {reason}")
}

// rule: Line of a review
/// Adds a line: a word of seven characters, the track, and what is said of it.
pub(crate) fn push_line(
    text: &mut Vec<u8>,
    word: &str,
    track: &str,
    says: &str,
) -> Result<(), AllocError>
    ensures { OnOk result (text.new.items ≡ text.old.items ++ line_string word.now track.now says.now) }
{
    text.extend_from_slice(word.as_bytes())?;
    text.push(b' ')?;
    text.extend_from_slice(track.as_bytes())?;
    text.extend_from_slice(b": ")?;
    text.extend_from_slice(says.as_bytes())?;
    text.push(b'\n')?;
    Ok(())
}
