//! What the update checks of a request came to.

ghost use Rattle.std.specs.Prelude.{◌≡◌};
ghost use Rattle.replies.specs.Counting.{check_at, check_of, grant_of, kind_of, replied_check, track_of};

use crate::choices::{Choice, Plan};
use crate::client::Assignment;
use omaha_json::{AppAsk, Request};
use payload_graph::Payload;
use tallies::{Check, CountChecks, Grant, Kind, Track};

// The kind of a payload.
fn kind_of(payload: Payload) -> Kind
    ensures { result ≡ kind_of payload }
{
    match payload {
        Payload::Full(_) => Kind::Full,
        Payload::Differ(_) => Kind::Differential,
    }
}

// What a mirror granted for a choice.
fn grant_of(choice: Choice, mirror: usize) -> Grant
    ensures { result ≡ grant_of choice mirror }
{
    Grant {
        mirror,
        kind: kind_of(choice.payload),
        bytes: choice.bytes,
    }
}

// The app and the cohort of a client.
fn track_of(client: Assignment) -> Track
    ensures { result ≡ track_of client }
{
    Track {
        app: client.key.app,
        cohort: client.key.cohort,
    }
}

// What an update check came to, by its client, by what was chosen, and by the mirror that granted it.
fn replied_check(client: Option<Assignment>, choice: Option<Choice>, mirror: Option<usize>) -> Check
    ensures { result ≡ replied_check client choice mirror }
{
    let Some(client) = client else {
        return Check::Unknown;
    };
    let track = track_of(client);
    match choice {
        None => Check::NoUpdate(track),
        Some(choice) => match mirror {
            None => Check::Internal(track),
            Some(mirror) => Check::Offered(track, grant_of(choice, mirror)),
        },
    }
}

// rule: Counted update check
// What is counted for an app of a request, if it has an update check.
fn check_of(
    ask: &AppAsk,
    client: Option<Assignment>,
    choice: Option<Choice>,
    mirror: Option<usize>,
) -> Option<Check>
    ensures { result ≡ check_of ask.now client choice mirror }
{
    match &ask.check {
        None => None,
        Some(_) => Some(replied_check(client, choice, mirror)),
    }
}

// The same of the app at an index.
fn check_at(
    request: &Request,
    plan: &Plan,
    outcomes: &[Option<usize>],
    index: usize,
) -> Option<Check>
    ensures { result ≡ check_at request.now plan.now outcomes.now index }
{
    let ask = request.apps.as_slice().get(index)?;
    let client = plan.clients.as_slice().get(index)?;
    let choice = plan.choices.as_slice().get(index)?;
    let mirror = outcomes.get(index)?;
    check_of(ask, *client, *choice, *mirror)
}

/// Shows a counter what the update checks of a request came to, one after the other, if the reply was made.
pub(crate) fn count_replied<C: CountChecks>(
    counter: &C,
    is_made: bool,
    request: &Request,
    plan: &Plan,
    outcomes: &[Option<usize>],
) {
    let many = if is_made {
        request.apps.as_slice().len()
    } else {
        0
    };
    for index in 0..many {
        if let Some(check) = check_at(request, plan, outcomes, index) {
            counter.count(check);
        }
    }
}
