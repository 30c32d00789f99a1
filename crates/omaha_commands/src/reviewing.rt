// The command `review`.

ghost use Rattle.std.specs.Prelude.{◌≡◌, IfOk, Ok};
ghost use Rattle.editions.specs.Editions.{content_of};
ghost use Rattle.omaha_commands.specs.Reviewing.{FindsBy, FindsIn, FindsInBatch, FindsInProfile, FindsNext, FindsReview, FindsWhole, IsCompared, IsReviewed, IsReviewedChange, PrintsReview, Reviews, change_bytes, end_of, failure_of_next, is_masked, limit_of, review_bytes};
ghost use Rattle.reviews.specs.Copies.{AreKept, HaveSources};
ghost use Rattle.reviews.specs.Reviews.{AreReviews};
ghost use Rattle.streams.specs.Streams.{Known};

use crate::fetching::review_server;
use crate::keeping::kept_apps;
use crate::operating::print_body;
use crate::script_file::read_script_of;
use catalogue::{Batch, Catalogue};
use editions::{Edition, NextError};
use failures::Failure;
use omaha_arguments::{Review, Source};
use profiles::open_profile;
use review_reports::{
    Change, Clients, changes, cut_off_newcomers, newly_stuck_total, stuck_total,
    write_change_objects, write_changes, write_review, write_review_objects,
};
use reviews::{Reviewed, TrackReview, review_catalogue, review_later};
use std::alloc::{AllocError, Global};
use std::thread::Threads;
use streams::{Disk, WriteWhole};
use update_client::{Connector, Reply};
use values::Text;

/// How many stuck releases of a track are printed without `--all`.
const MAX_STUCK: usize = 40;

/// How a review ends.
#[derive(Clone, Copy)]
pub(crate) enum Verdict {
    /// So many releases are stuck, or newly stuck, with new clients who are cut off.
    StuckReleases(u128),
    /// A server sent another reply than the one that was asked for, with this status.
    Declined(u16),
}

/// What a review finds: what is printed, and how it ends.
#[derive(Drop)]
pub(crate) struct Findings {
    /// What is printed.
    pub(crate) text: Vec<u8>,
    /// How it ends.
    pub(crate) verdict: Verdict,
}

fn limit_of(asked: &Review) -> usize
    ensures { result ≡ limit_of asked.now }
{
    if asked.all { usize::MAX } else { MAX_STUCK }
}

// The reviews of an edition's tracks.
fn reviews_of(alloc: Global, edition: &Edition) -> Result<Vec<TrackReview>, AllocError>
    ensures { IfOk result (λ reviews. AreReviews (content_of edition.now) reviews.items) }
{
    review_catalogue(alloc, edition.catalogue(), edition.tables())
}

// What is printed of the reviews of a catalogue's tracks.
fn review_bytes(
    alloc: Global,
    asked: &Review,
    catalogue: &Catalogue,
    reviews: &[TrackReview],
) -> Result<Vec<u8>, AllocError>
    ensures { IfOk result (λ text. text.items ≡ review_bytes asked.now catalogue.now reviews.now) }
{
    if asked.json {
        write_review_objects(alloc, catalogue, reviews)
    } else {
        write_review(alloc, catalogue, limit_of(asked), reviews)
    }
}

// What is printed of the changes to the reviews of a later catalogue, and of new clients who are cut off.
fn change_bytes(
    alloc: Global,
    asked: &Review,
    after: &Reviewed<'_>,
    changes: &[Change],
    cut_off: &[Clients],
) -> Result<Vec<u8>, AllocError>
    ensures { IfOk result (λ text. text.items ≡ change_bytes asked.now after.now.catalogue.now after.now.tracks.now changes.now cut_off.now) }
{
    if asked.json {
        write_change_objects(alloc, after, changes, cut_off)
    } else {
        write_changes(alloc, after, changes, cut_off)
    }
}

// What the review of an edition finds.
fn review_edition(alloc: Global, asked: &Review, edition: &Edition) -> Result<Findings, AllocError>
    ensures { IfOk result (IsReviewed asked.now edition.now) }
{
    let reviews = reviews_of(alloc, edition)?;
    Ok(Findings {
        text: review_bytes(alloc, asked, edition.catalogue(), reviews.as_slice())?,
        verdict: Verdict::StuckReleases(stuck_total(reviews.as_slice())),
    })
}

// What the reviews of a catalogue and of a later one find, with the sources of the later ones.
fn compare(
    alloc: Global,
    asked: &Review,
    before: &Reviewed<'_>,
    after: &Reviewed<'_>,
    sources: &[Option<usize>],
) -> Result<Findings, AllocError>
    requires { HaveSources before.now.catalogue.now after.now.catalogue.now before.now.tracks.now after.now.tracks.now sources.now }
    ensures { IfOk result (IsCompared asked.now before.now.catalogue.now after.now.catalogue.now before.now.tracks.now after.now.tracks.now) }
{
    let changes = changes(alloc, before, after, sources)?;
    let cut_off = cut_off_newcomers(alloc, before, after.tracks)?;
    let stuck = newly_stuck_total(changes.as_slice(), cut_off.as_slice());
    Ok(Findings {
        text: change_bytes(alloc, asked, after, changes.as_slice(), cut_off.as_slice())?,
        verdict: Verdict::StuckReleases(stuck),
    })
}

// What the review of a change from one edition to another finds, with flags of the apps that the change keeps.
fn review_change(
    alloc: Global,
    asked: &Review,
    before: &Edition,
    after: &Edition,
    kept: &[bool],
) -> Result<Findings, AllocError>
    requires { AreKept (content_of before.now) (content_of after.now) kept.now }
    ensures { IfOk result (IsReviewedChange asked.now before.now after.now) }
{
    let old = reviews_of(alloc, before)?;
    let old = Reviewed {
        catalogue: before.catalogue(),
        tracks: old.as_slice(),
    };
    let later = review_later(alloc, &old, kept, after.catalogue(), after.tables())?;
    let new = Reviewed {
        catalogue: after.catalogue(),
        tracks: later.tracks.as_slice(),
    };
    compare(alloc, asked, &old, &new, later.sources.as_slice())
}

// What the review of a change finds, unless memory runs out.
fn review_next(
    alloc: Global,
    asked: &Review,
    before: &Edition,
    after: &Edition,
    kept: Result<Vec<bool>, AllocError>,
) -> Result<Findings, Failure>
    requires { IfOk kept (λ kept. AreKept (content_of before.now) (content_of after.now) kept.items) }
    ensures { FindsNext asked.now before.now after.now result }
{
    let Ok(kept) = kept else {
        return Err(Failure::Memory);
    };
    match review_change(alloc, asked, before, after, kept.as_slice()) {
        Ok(findings) => Ok(findings),
        Err(_) => Err(Failure::Memory),
    }
}

/// Why an edition has no next one, as a failure.
pub(crate) fn failure_of(error: NextError) -> Failure
    ensures { result ≡ failure_of_next error }
{
    match error {
        NextError::Refused(refused) => Failure::Edit(refused),
        NextError::HistoryFull => Failure::HistoryFull,
        NextError::Memory => Failure::Memory,
    }
}

// What the review of a batch finds that is written for an edition of a number.
fn review_batch(
    alloc: Global,
    asked: &Review,
    edition: &Edition,
    base: u64,
    batch: Batch,
) -> Result<Findings, Failure>
    ensures { FindsInBatch asked.now edition.now base batch result }
{
    catalogue::histories::growth();
    catalogue::histories::other_apps();
    if base != edition.number() {
        return Err(Failure::Stale(edition.number()));
    }
    let kept = kept_apps(alloc, edition.catalogue(), &batch);
    match edition.next(batch) {
        Ok(next) => review_next(alloc, asked, edition, &next, kept),
        Err(error) => Err(failure_of(error)),
    }
}

// What the review of an edition finds, unless memory runs out.
fn review_whole(alloc: Global, asked: &Review, edition: &Edition) -> Result<Findings, Failure>
    ensures { FindsWhole asked.now edition.now result }
{
    match review_edition(alloc, asked, edition) {
        Ok(findings) => Ok(findings),
        Err(_) => Err(Failure::Memory),
    }
}

/// What the review of an edition finds, without a script or with one.
pub(crate) fn review_by(
    alloc: Global,
    asked: &Review,
    edition: &Edition,
    script: Option<(u64, Batch)>,
) -> Result<Findings, Failure>
    ensures { FindsBy asked.now edition.now script result }
{
    match script {
        None => review_whole(alloc, asked, edition),
        Some((base, batch)) => review_batch(alloc, asked, edition, base, batch),
    }
}

// What the review of a profile's file finds.
fn review_profile<R: Disk + AllocGlobal + Threads + Sync>(
    rt: &R,
    path: &Text,
    asked: &Review,
    script: Option<(u64, Batch)>,
) -> Result<Findings, Failure>
    ensures { FindsInProfile (R.file_at rt.now) path.now asked.now script result }
{
    match open_profile(rt, path, 1) {
        Ok(service) => review_by(rt.alloc(), asked, &service.edition, script),
        Err(failure) => Err(failure),
    }
}

// What the review of the catalogue finds that is asked for.
fn review_source<R: Disk + Connector + AllocGlobal + Threads + Sync>(
    rt: &R,
    asked: &Review,
    script: Option<(u64, Batch)>,
) -> Result<Findings, Failure>
    ensures { FindsIn (R.file_at rt.now) (R.operated rt.now) asked.now asked.now.source script result }
{
    match &asked.source {
        Source::Profile(path) => review_profile(rt, path, asked, script),
        Source::Server(to) => review_server(rt, rt.alloc(), to, asked, script),
    }
}

// What a review finds.
fn find_review<R: Disk + Connector + AllocGlobal + Threads + Sync>(
    rt: &R,
    asked: &Review,
) -> Result<Findings, Failure>
    ensures { FindsReview (R.file_at rt.now) (R.operated rt.now) asked.now result }
{
    match read_script_of(rt, &asked.script) {
        Ok(script) => review_source(rt, asked, script),
        Err(failure) => Err(failure),
    }
}

// rule: Strict review
// How a review ends that printed what it found.
fn end_of(asked: &Review, findings: Findings) -> Result<(), Failure>
    ensures { result ≡ end_of asked.now findings }
{
    match findings.verdict {
        Verdict::StuckReleases(stuck) if asked.strict && 0 < stuck => Err(Failure::Stuck(stuck)),
        Verdict::StuckReleases(_) => Ok(()),
        Verdict::Declined(status) => Err(Failure::Declined(Reply {
            status,
            body: findings.text,
        })),
    }
}

// Whether a terminal gets what was found without control characters: a server's reply.
fn is_masked(shown: bool, verdict: &Verdict) -> bool
    ensures { result ≡ is_masked shown verdict.now }
{
    match verdict {
        Verdict::StuckReleases(_) => false,
        Verdict::Declined(_) => shown,
    }
}

// Prints what a review found, and ends by it.
fn print_review<W: WriteWhole>(
    alloc: Global,
    asked: &Review,
    shown: bool,
    findings: Findings,
    writer: &mut W,
) -> Result<(), Failure>
    ensures { (input : Known) → PrintsReview shown asked.now (Ok findings)
        (record { input = input; output = W.output writer.old })
        (record { input = input; output = W.output writer.new }) result }
{
    let masked = is_masked(shown, &findings.verdict);
    match print_body(alloc, masked, findings.text.as_slice(), writer) {
        Ok(()) => end_of(asked, findings),
        Err(failure) => Err(failure),
    }
}

// rule: Report of a review
/// Reviews a profile or what a server has published, or what a script changes of it, and prints what it finds.
///
/// Fails, in this order, with the script's file and its first fault; with the profile's file, its first fault and its
/// first rejected edit; with another base than the profile's edition, and the script's first rejected edit; each time
/// nothing is printed. Of a server it fails with `Net` if its operator's listener can't be reached or sends no whole
/// reply, and with `Unexpected` if no operator's listener replies so. If the server has another edition than the script's
/// base or dumps nothing, its reply is printed, if `shown` without control characters, and it fails with `Declined`. If
/// the writer fails, a first part is printed. With
/// `strict` it then fails with how many releases are stuck or newly stuck, with new clients whom the script cuts off.
pub fn review_on<R: Disk + Connector + AllocGlobal + Threads + Sync, W: WriteWhole>(
    rt: &R,
    asked: &Review,
    shown: bool,
    writer: &mut W,
) -> Result<(), Failure>
    ensures { (input : Known) → Reviews (R.file_at rt.now) (R.operated rt.now) shown asked.now
        (record { input = input; output = W.output writer.old })
        (record { input = input; output = W.output writer.new }) result }
{
    match find_review(rt, asked) {
        Ok(findings) => print_review(rt.alloc(), asked, shown, findings, writer),
        Err(failure) => Err(failure),
    }
}
