// Tracks, and how a client is assigned to one.

ghost use Rattle.std.specs.Prelude.{◌≡◌, ◌≤◌, ◌<◌, length, IfSome, option_map, position};
ghost use Rattle.std.specs.Option.{option_map_or};
ghost use Rattle.catalogue.specs.Lookups.{cohorts_at, releases_at};
ghost use Rattle.cohorts.specs.Tracks.{asks_rollback, cohort_of, hinted_cohort, lane_of, named_cohort, pin_asked, session_bucket, track_in, track_of};
ghost use Rattle.cohorts.specs.CohortTexts.{parsed};

use crate::cohort_text::CohortText;
use crate::laws;
use crate::offer::track_target;
use crate::pin::Pin;
use crate::session::Session;
use catalogue::{Catalogue, Cohort, Release, Version};
use omaha_json::AppAsk;

/// Which of a cohort's two targets a client is meant to have.
#[derive(Clone, Copy, PartialEq, Eq, Hash)]
pub enum Lane {
    /// The target, for the buckets below the cohort's share.
    Target,
    /// The held target, for the others.
    Held,
}

/// A client's cohort and bucket in an app, and what follows from them.
#[derive(Clone, Copy, PartialEq, Eq)]
pub struct Track {
    /// The index of the cohort that serves the client, in the app's cohorts.
    pub cohort: usize,
    /// The client's bucket, 0 to 999.
    pub bucket: u16,
    /// The lane of the bucket in the cohort.
    pub lane: Lane,
    /// Whether the client may be downgraded: the cohort and the client allow it.
    pub rollback: bool,
    /// Which versions the client's administrator allows.
    pub pin: Pin,
    /// The version that the client is meant to have, if any.
    pub target: Option<Version>,
}

fn find_hinted(cohorts: &[Cohort], hint: &str) -> Option<usize>
    ensures hinted { result ≡ hinted_cohort cohorts.now hint.now }
    ensures within { IfSome result (λ index. index < length cohorts.now) }
{
    cohorts
        .iter()
        .position(|cohort| cohort.hintable && hint == cohort.name.as_str())
}

// The cohort that a cohort text names; `named` is what it says.
fn find_named(catalogue: &Catalogue, app: usize, named: Option<(&str, u16)>) -> Option<usize>
    requires { app < length catalogue.now }
    ensures named { result
        ≡ named_cohort (cohorts_at catalogue.now app) (option_map (λ named. (named.0.now, named.1)) named.entry) }
    ensures within { IfSome result (λ index. index < length (cohorts_at catalogue.now app)) }
{
    let (name, _) = named?;
    catalogue.find_cohort(app, name)
}

// rule: Cohort of a client
// The index of the cohort that serves a client.
fn find_serving(
    catalogue: &Catalogue,
    app: usize,
    ask: &AppAsk,
    named: Option<(&str, u16)>,
) -> usize
    requires app { app < length catalogue.now }
    requires named { option_map (λ named. (named.0.now, named.1)) named ≡ parsed ask.now.cohort }
    ensures cohort { result ≡ cohort_of (cohorts_at catalogue.now app) ask.now }
    ensures within { result < length (cohorts_at catalogue.now app) }
{
    catalogue.validity();
    let hinted = find_hinted(catalogue.cohorts(app), ask.hint.as_str());
    let sent = find_named(catalogue, app, named);
    hinted.or(sent).unwrap_or(0)
}

// rule: Bucket of a client
// The bucket that a cohort text names, else the session's.
fn choose_bucket(named: Option<(&str, u16)>, session: &mut Session<'_>) -> u16
    requires { IfSome named (λ named. named.1 < 1000) }
    ensures bucket { result ≡ option_map_or (λ named. named.1) named.entry (session_bucket session.old) }
    ensures same { session.new ≡ session.old }
    ensures small { result < 1000 }
{
    match named {
        Some((_, bucket)) => bucket,
        None => session.bucket(),
    }
}

// rule: Lane
fn choose_lane(cohort: &Cohort, bucket: u16) -> Lane
    ensures { result ≡ lane_of cohort.now bucket }
{
    if u64::from(bucket) < cohort.share {
        Lane::Target
    } else {
        Lane::Held
    }
}

fn allows_rollback(ask: &AppAsk) -> bool
    ensures { result ≡ asks_rollback ask.now }
{
    match &ask.check {
        Some(check) => check.rollback,
        None => false,
    }
}

fn read_pin(ask: &AppAsk) -> Pin
    ensures { result ≡ pin_asked ask.now }
{
    match &ask.check {
        Some(check) => Pin::parse(check.prefix.as_str()),
        None => Pin::Any,
    }
}

// rule: Rollback of a track
// The track of a bucket in the cohort at an index.
fn track_in(releases: &[Release], cohort: &Cohort, index: usize, bucket: u16, ask: &AppAsk) -> Track
    ensures { result ≡ track_in releases.now cohort.now index bucket ask.now }
{
    let lane = choose_lane(cohort, bucket);
    let pin = read_pin(ask);
    Track {
        cohort: index,
        bucket,
        lane,
        rollback: cohort.rollback && allows_rollback(ask),
        pin,
        target: track_target(releases, cohort, lane, &pin),
    }
}

impl<'a> Session<'a> {
    /// Returns the track of one of the session's clients, in the app at an index.
    ///
    /// The index is in range. The session is hashed if the client needs its bucket and no client
    /// before did; see `assign`.
    pub fn assign(&mut self, catalogue: &Catalogue, app: usize, ask: &AppAsk) -> Track
        requires { app < length catalogue.now }
        ensures track { result ≡ track_of (releases_at catalogue.now app) (cohorts_at catalogue.now app) ask.now self.old }
        ensures same { self.new ≡ self.old }
        ensures cohort { result.cohort < length (cohorts_at catalogue.now app) }
        ensures bucket { result.bucket < 1000 }
    {
        laws::cohort_texts();
        let named = CohortText::parse(ask.cohort.as_str());
        let index = find_serving(catalogue, app, ask, named);
        let cohort = &catalogue.cohorts(app)[index];
        let bucket = choose_bucket(named, self);
        track_in(catalogue.releases(app), cohort, index, bucket, ask)
    }
}

/// Returns the track of a client in the app at an index, which is in range.
///
/// - Cohort: the one that the hint names if it is open to hints; else the one that the cohort text
///   names if the app has it; else the default one.
/// - Bucket: the cohort text's if that is well formed, else that of the session, which may be
///   empty.
/// - Lane: the target's if the bucket is below the cohort's share, else the held one.
/// - Pin: that of the prefix that the client sent, which is `Any` for an empty one or for none. The track's target
///   is the lane's for that pin, and for another one the highest release up to it that the client is offered.
/// - The client may be downgraded if the cohort's rollback flag is set and the client allows it.
///
/// It allocates nothing. To assign several clients of one session, call `Session::assign`.
pub fn assign(catalogue: &Catalogue, app: usize, ask: &AppAsk, session: &str) -> Track
    requires { app < length catalogue.now }
    ensures track { result ≡ track_of (releases_at catalogue.now app) (cohorts_at catalogue.now app) ask.now session.now }
    ensures cohort { result.cohort < length (cohorts_at catalogue.now app) }
    ensures bucket { result.bucket < 1000 }
{
    let mut session = Session::new(session);
    session.assign(catalogue, app, ask)
}
