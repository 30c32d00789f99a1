//! Who asks for an app of a request.

ghost use Rattle.std.specs.Prelude.{◌≡◌, ◌<◌, IfOk, Some, length, slice_get};
ghost use Rattle.std.specs.List.{AllZip};
ghost use Rattle.replies.specs.Clients.{IsAssigned, IsInCohort, client_in, cohort_of};

use catalogue::{App, Catalogue, Cohort};
use cohorts::{Session, Track, track_target};
use omaha_json::{AppAsk, Request};
use payload_graph::TrackKey;
use std::alloc::{AllocError, Global};

/// What a plan keeps of a client: the key of the track that it is assigned to, and its bucket.
#[derive(Clone, Copy)]
pub struct Assignment {
    /// The key of the client's track.
    pub key: TrackKey,
    /// The client's bucket, 0 to 999.
    pub bucket: u16,
}

// rule: Client of an app
// rule: Key of a client
/// Finds the app that is asked for, and assigns its client to a track.
pub(crate) fn assign(
    catalogue: &Catalogue,
    session: &mut Session<'_>,
    ask: &AppAsk,
) -> Option<Assignment>
    ensures assigned { IsAssigned catalogue.now session.old ask.now result }
    ensures same { session.new ≡ session.old }
{
    let app = catalogue.app(ask.appid.as_str())?;
    let track = session.assign(catalogue, app, ask);
    let key = TrackKey {
        app,
        cohort: track.cohort,
        lane: track.lane,
        rollback: track.rollback,
        pin: track.pin,
    };
    Some(Assignment {
        key,
        bucket: track.bucket,
    })
}

/// Assigns the client of each app of a request, in order.
pub(crate) fn assign_each(
    alloc: Global,
    catalogue: &Catalogue,
    request: &Request,
) -> Result<Vec<Option<Assignment>>, AllocError>
    ensures { IfOk result (λ clients.
        AllZip (IsAssigned catalogue.now request.now.session) request.now.apps clients.items) }
{
    let asks = request.apps.as_slice();
    let mut session = Session::new(request.session.as_str());
    let mut clients = Vec::with_capacity(alloc, asks.len())?;
    for ask in asks {
        let client = assign(catalogue, &mut session, ask);
        clients.extend_from_slice(&[client])?;
    }
    Ok(clients)
}

/// A client of an app: who asks for an app of a request.
#[derive(Drop)]
pub(crate) struct Client<'a> {
    /// The app's index in the catalogue.
    pub(crate) index: usize,
    /// The app.
    pub(crate) app: &'a App,
    /// The client's track in the app.
    pub(crate) track: Track,
}

impl<'a> Client<'a> {
    /// Makes the client of an assignment in the catalogue.
    pub(crate) fn new(catalogue: &'a Catalogue, assignment: &Assignment) -> Client<'a>
        requires { IsInCohort catalogue.now (Some assignment.now) }
        ensures client { client_in catalogue.now assignment.now
            ≡ Some (record { index = result.index; app = result.app.now; track = result.track }) }
        ensures app { slice_get catalogue.now result.index ≡ Some result.app.now }
        ensures cohort { result.track.cohort < length result.app.now.cohorts }
    {
        let TrackKey {
            app: index,
            cohort,
            lane,
            rollback,
            pin,
        } = assignment.key;
        let app = &catalogue.apps()[index];
        let serving = &app.cohorts.as_slice()[cohort];
        let target = track_target(app.releases.as_slice(), serving, lane, &pin);
        Client {
            index,
            app,
            track: Track {
                cohort,
                bucket: assignment.bucket,
                lane,
                rollback,
                pin,
                target,
            },
        }
    }

    // rule: Cohort that a reply names
    /// Borrows the cohort that serves the client.
    pub(crate) fn cohort(&self) -> &'a Cohort
        requires { self.now.track.cohort < length self.now.app.now.cohorts }
        ensures { result.now ≡ cohort_of (record { index = self.now.index; app = self.now.app.now; track = self.now.track }) }
    {
        &self.app.cohorts.as_slice()[self.track.cohort]
    }
}
