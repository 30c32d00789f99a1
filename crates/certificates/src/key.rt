//! How the key of a certificate is read.

ghost use Rattle.std.specs.Prelude.{◌≡◌, ◌<◌, length, IfOk, IfSome, position};
ghost use Rattle.cohorts.specs.declared.pin.Pin.TheVariants as pin;
ghost use Rattle.certificates.specs.Keys.{app_of, cohort_of, is_named, key_of, key_of_string, lane_named, value_of, IsRead};

use crate::fault::Fault;
use crate::heading::{Heading, value_in};
use crate::lines::split_line;
use catalogue::Catalogue;
use cohorts::{Lane, Pin};
use payload_graph::TrackKey;

fn value_of(heading: Heading, n: usize, text: &[u8]) -> Result<(&str, &[u8]), Fault>
    ensures { IsRead (λ parts. (parts.0.now, parts.1.now)) result (value_of heading n text.now) }
{
    let Some((line, rest)) = split_line(text) else {
        return Err(Fault::BadLine { n });
    };
    match value_in(heading, line) {
        Some(value) => Ok((value, rest)),
        None => Err(Fault::BadLine { n }),
    }
}

fn find_app(catalogue: &Catalogue, id: &str) -> Option<usize>
    ensures app { result ≡ position (is_named id.now) catalogue.now }
    ensures within { IfSome result (λ app. app < length catalogue.now) }
{
    catalogue
        .apps()
        .iter()
        .position(|app| id == app.id.as_str())
}

fn app_of<'a>(catalogue: &Catalogue, text: &'a [u8]) -> Result<(usize, &'a [u8]), Fault>
    ensures app { IsRead (λ parts. (parts.0, parts.1.now)) result (app_of catalogue.now text.now) }
    ensures within { IfOk result (λ parts. parts.0 < length catalogue.now) }
{
    let (_format, rest) = value_of(Heading::Format, 1, text)?;
    let (id, rest) = value_of(Heading::App, 2, rest)?;
    match find_app(catalogue, id) {
        Some(app) => Ok((app, rest)),
        None => Err(Fault::NotOfThisGraph { n: 2 }),
    }
}

fn cohort_of<'a>(
    catalogue: &Catalogue,
    app: usize,
    text: &'a [u8],
) -> Result<(usize, &'a [u8]), Fault>
    requires { app < length catalogue.now }
    ensures { IsRead (λ parts. (parts.0, parts.1.now)) result (cohort_of catalogue.now app text.now) }
{
    let (name, rest) = value_of(Heading::Cohort, 3, text)?;
    match catalogue.find_cohort(app, name) {
        Some(cohort) => Ok((cohort, rest)),
        None => Err(Fault::NotOfThisGraph { n: 3 }),
    }
}

fn lane_named(word: &str) -> Lane
    ensures { result ≡ lane_named word.now }
{
    if word == "held" {
        Lane::Held
    } else {
        Lane::Target
    }
}

fn key_of(app: usize, cohort: usize, text: &[u8]) -> Result<TrackKey, Fault>
    ensures key { IsRead (λ key. key) result (key_of app cohort text.now) }
    ensures pin { IfOk result (λ key. key.pin ≡ pin.Any) }
{
    let (lane, rest) = value_of(Heading::Lane, 4, text)?;
    let (rollback, _rest) = value_of(Heading::Rollback, 5, rest)?;
    Ok(TrackKey {
        app,
        cohort,
        lane: lane_named(lane),
        rollback: rollback == "yes",
        pin: Pin::Any,
    })
}

// rule: Key of a certificate
/// Reads the key of the track that a certificate names, from its first five lines.
///
/// The key is of clients without a pin. What is after those lines is not looked at. Otherwise it returns the first
/// wrong line: P1 `BadLine` if it is not well formed or is missing, P2 `NotOfThisGraph` if it names an app that the
/// catalogue does not have in this spelling, or a cohort that the app does not have. It takes no memory.
pub fn read_key(catalogue: &Catalogue, text: &[u8]) -> Result<TrackKey, Fault>
    ensures key { IsRead (λ key. key) result (key_of_string catalogue.now text.now) }
    ensures pin { IfOk result (λ key. key.pin ≡ pin.Any) }
{
    let (app, rest) = app_of(catalogue, text)?;
    let (cohort, rest) = cohort_of(catalogue, app, rest)?;
    key_of(app, cohort, rest)
}
