//! The reviews of the tracks of a catalogue.

ghost use Rattle.std.specs.Prelude.{◌≡◌, ◌<◌, not, IfOk, MatchOption, None, Some, length, slice_get};
ghost use Rattle.std.specs.List.{list_any};
ghost use Rattle.cohorts.specs.declared.pin.Pin.TheVariants as pin;
ghost use Rattle.payload_graph.specs.Net.{net_among};
ghost use Rattle.par_tables.specs.Tables.{AreTables};
ghost use Rattle.reviews.specs.Reasons.{reason_at, Explains};
ghost use Rattle.reviews.specs.Reviews.{is_unpriced, AreReviews, AreOutcomes, IsTrackReviewAmong};
ghost use Rattle.reviews.specs.Tracks.{IsTrackOf};

use crate::cause::Reason;
use crate::largest::{Largest, find_largest, largest_sum};
use crate::outcome::{Outcome, outcome_by};
use crate::reasons::Subject;
use crate::steps::all_steps;
use catalogue::{Catalogue, Version, lookup};
use cohorts::track_target;
use payload_graph::{Place, TrackKey};
use price_cert::{Certified, Row};
use quotes::{Quote, quote_at, quote_from};
use std::alloc::{AllocError, Global};
use values::SharedItems;

/// What is said of the clients of a track with a target.
pub struct TrackReview {
    /// The track's key; its clients have no pin.
    pub key: TrackKey,
    /// The index of the track's target, by ascending version.
    pub target: usize,
    /// Where the clients at each release are, by ascending version.
    pub outcomes: SharedItems<Outcome>,
    /// How many payloads lead from each release to the target, `None` at the target and if its clients are stuck.
    pub steps: SharedItems<Option<u64>>,
    /// The largest of the least sums, in bytes, with the lowest release that has it; `None` if there is no sum.
    pub largest: Option<Largest>,
    /// The largest number of steps, with the lowest release that has it; `None` if there are no steps.
    pub longest: Option<Largest>,
    /// What clients outside of all releases are offered, from version 0.
    pub newcomers: Quote,
}

// Written out, so that no caller proves again how each part is dropped.
impl Drop for TrackReview {
    fn drop(self) {
        let TrackReview {
            key: _,
            target: _,
            outcomes: _,
            steps: _,
            largest: _,
            longest: _,
            newcomers: _,
        } = self;
    }
}

// The track of a key whose clients have no pin, `None` if it has no target.
fn find_subject<'a>(catalogue: &'a Catalogue, key: &'a TrackKey) -> Option<Subject<'a>>
    requires { key.now.pin ≡ pin.Any }
    ensures { MatchOption result (net_among catalogue.now key.now ≡ None)
        (λ subject. (slice_get catalogue.now key.now.app ≡ Some subject.app.now) × (subject.key.now ≡ key.now)
        × IsTrackOf subject.app.now subject.key.now subject.cohort.now subject.target) }
{
    catalogue.validity();
    let app = catalogue.apps().get(key.app)?;
    let cohort = app.cohorts.as_slice().get(key.cohort)?;
    let version = track_target(app.releases.as_slice(), cohort, key.lane, &key.pin)?;
    let target = lookup::index_of_release(app.releases.as_slice(), &version)?;
    Some(Subject {
        app,
        key,
        cohort,
        target,
    })
}

// rule: Stuck release
fn is_unpriced(row: &Row) -> bool
    ensures { result ≡ is_unpriced row.now }
{
    match row {
        Row::Nothing => true,
        _ => false,
    }
}

fn has_unpriced(rows: &[Row]) -> bool
    ensures { result ≡ list_any is_unpriced rows.now }
{
    rows.iter().any(|row| is_unpriced(row))
}

fn reason_at(reasons: &[Reason], release: usize) -> Reason
    ensures { result ≡ reason_at reasons.now release }
{
    match reasons.get(release) {
        Some(reason) => *reason,
        None => Reason::Several,
    }
}

// The reasons of a track's stuck releases: none are looked for if no release is stuck.
fn find_reasons(
    alloc: Global,
    catalogue: &Catalogue,
    subject: &Subject<'_>,
    table: &Certified,
) -> Result<Vec<Reason>, AllocError>
    requires there { slice_get catalogue.now subject.now.key.now.app ≡ Some subject.now.app.now }
    requires track { IsTrackOf subject.now.app.now subject.now.key.now subject.now.cohort.now subject.now.target }
    requires table { net_among catalogue.now subject.now.key.now ≡ Some table.now.net }
    ensures { IfOk result (λ reasons. Explains subject.now.app.now subject.now.key.now reasons.items) }
{
    quotes::laws::least();
    let rows = table.rows();
    if !has_unpriced(rows) {
        return Ok(Vec::new(alloc));
    }
    let reasons = subject.reasons(alloc)?;
    Ok(reasons)
}

// rule: Outcome of a release
// The outcomes of a track's releases, by their reasons if they are stuck.
fn find_outcomes(
    alloc: Global,
    catalogue: &Catalogue,
    subject: &Subject<'_>,
    table: &Certified,
    reasons: &[Reason],
) -> Result<SharedItems<Outcome>, AllocError>
    requires there { slice_get catalogue.now subject.now.key.now.app ≡ Some subject.now.app.now }
    requires table { net_among catalogue.now subject.now.key.now ≡ Some table.now.net }
    requires reasons { Explains subject.now.app.now subject.now.key.now reasons.now }
    ensures { IfOk result (AreOutcomes subject.now.app.now subject.now.key.now) }
{
    let releases = subject.app.releases.as_slice();
    let mut outcomes = Vec::new(alloc);
    for release in 0..releases.len() {
        let quote = quote_at(catalogue, subject.key, release, table);
        outcomes.push(outcome_by(reason_at(reasons, release), quote))?;
    }
    let shared = SharedItems::new(alloc, outcomes)?;
    Ok(shared)
}

// rule: Review of a track
// The review of a track by its table.
fn review_subject(
    alloc: Global,
    catalogue: &Catalogue,
    subject: &Subject<'_>,
    table: &Certified,
) -> Result<TrackReview, AllocError>
    requires there { slice_get catalogue.now subject.now.key.now.app ≡ Some subject.now.app.now }
    requires track { IsTrackOf subject.now.app.now subject.now.key.now subject.now.cohort.now subject.now.target }
    requires table { net_among catalogue.now subject.now.key.now ≡ Some table.now.net }
    ensures key { IfOk result (λ review. review.key ≡ subject.now.key.now) }
    ensures review { IfOk result (IsTrackReviewAmong catalogue.now) }
{
    let reasons = find_reasons(alloc, catalogue, subject, table)?;
    let outcomes = find_outcomes(alloc, catalogue, subject, table, reasons.as_slice())?;
    let steps = all_steps(alloc, subject.app, outcomes.as_slice())?;
    let largest = largest_sum(alloc, outcomes.as_slice())?;
    let longest = find_largest(steps.as_slice());
    let place = Place::Outside(Version::zero());
    Ok(TrackReview {
        key: *subject.key,
        target: subject.target,
        outcomes,
        steps,
        largest,
        longest,
        newcomers: quote_from(catalogue, subject.key, &place, table),
    })
}

/// The review of a track by its table.
pub(crate) fn review_table(
    alloc: Global,
    catalogue: &Catalogue,
    table: &Certified,
) -> Result<TrackReview, AllocError>
    requires table { net_among catalogue.now table.now.net.key ≡ Some table.now.net }
    requires pin { table.now.net.key.pin ≡ pin.Any }
    ensures key { IfOk result (λ review. review.key ≡ table.now.net.key) }
    ensures review { IfOk result (IsTrackReviewAmong catalogue.now) }
{
    let key = table.key();
    match find_subject(catalogue, &key) {
        Some(subject) => review_subject(alloc, catalogue, &subject, table),
        None => unreachable!(),
    }
}

// rule: Review of a catalogue
/// Reviews each track of a catalogue that has a target, in the order of its tables.
///
/// The tables are the catalogue's, as an edition has them. Reasons are looked for only on tracks with a stuck release.
pub fn review_catalogue(
    alloc: Global,
    catalogue: &Catalogue,
    tables: &[Certified],
) -> Result<Vec<TrackReview>, AllocError>
    requires { AreTables catalogue.now tables.now }
    ensures { IfOk result (λ reviews. AreReviews catalogue.now reviews.items) }
{
    par_tables::laws::tracks();
    let mut reviews = Vec::new(alloc);
    for table in tables {
        let review = review_table(alloc, catalogue, table)?;
        reviews.push(review)?;
    }
    Ok(reviews)
}
