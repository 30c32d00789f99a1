//! A track, chosen by names.

ghost use Rattle.std.specs.Prelude.{◌≡◌, ◌<◌, IfSome, length};
ghost use Rattle.cohorts.specs.declared.pin.Pin.TheVariants as pin;
ghost use Rattle.omaha_commands.specs.Certificates.{key_named};

use catalogue::Catalogue;
use cohorts::{Pin, TrackNames};
use payload_graph::TrackKey;

// rule: Named track
/// The key of the track of those names, of clients without a pin; `None` if there is no such app or cohort.
pub(crate) fn key_named(catalogue: &Catalogue, names: &TrackNames) -> Option<TrackKey>
    ensures key { result ≡ key_named catalogue.now names.now }
    ensures pin { IfSome result (λ key. key.pin ≡ pin.Any) }
    ensures app { IfSome result (λ key. key.app < length catalogue.now) }
{
    let app = catalogue.app(names.app.as_str())?;
    let cohort = catalogue.find_cohort(app, names.cohort.as_str())?;
    Some(TrackKey {
        app,
        cohort,
        lane: names.lane,
        rollback: names.rollback,
        pin: Pin::Any,
    })
}
