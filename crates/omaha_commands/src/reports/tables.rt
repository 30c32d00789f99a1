//! The table of a key.

ghost use Rattle.std.specs.Prelude.{◌≡◌, IfSome, option_map};
ghost use Rattle.cohorts.specs.declared.pin.Pin.TheVariants as pin;
ghost use Rattle.editions.specs.Editions.{content_of};
ghost use Rattle.omaha_commands.specs.Certificates.{allows_downgrades, table_net};

use catalogue::Catalogue;
use editions::Edition;
use payload_graph::TrackKey;
use price_cert::Certified;

fn allows_downgrades(catalogue: &Catalogue, key: &TrackKey) -> bool
    ensures { result ≡ allows_downgrades catalogue.now key.now }
{
    match catalogue.apps().get(key.app) {
        None => false,
        Some(app) => match app.cohorts.as_slice().get(key.cohort) {
            None => false,
            Some(cohort) => cohort.rollback,
        },
    }
}

// rule: Table of a track
/// The table of a key's track, `None` if there is none; the key's clients have no pin.
pub(crate) fn table_of<'a>(edition: &'a Edition, key: &TrackKey) -> Option<&'a Certified>
    requires { key.now.pin ≡ pin.Any }
    ensures table { option_map (λ table. table.now.net) result ≡ table_net (content_of edition.now) key.now }
    ensures key { IfSome result (λ table. table.now.net.key ≡ key.now) }
{
    if key.rollback && !allows_downgrades(edition.catalogue(), key) {
        return None;
    }
    edition.table(key)
}
