//! Which catalogues are looked at, and which apps are drawn.

ghost use Rattle.std.specs.Prelude.{◌≡◌};
ghost use Rattle.std.specs.List.{list_any};
ghost use Rattle.operator_pages.specs.AppSights.{has_many_cohorts, is_small, weight};

use catalogue::App;

/// How many apps and releases a catalogue has at most that is looked at.
const MAX_WEIGHT: u128 = 4096;

/// How many cohorts each of its apps has at most.
const MAX_COHORTS: usize = 16;

/// How many releases an app has at most that is drawn.
pub(crate) const MAX_DRAWN: usize = 64;

// How many apps and releases there are.
fn weight(apps: &[App]) -> u128
    ensures { result ≡ weight apps.now }
{
    let mut total: u128 = 0;
    for app in apps {
        total += app.releases.len() as u128 + 1;
    }
    total
}

fn has_many_cohorts(app: &App) -> bool
    ensures { result ≡ has_many_cohorts app.now }
{
    MAX_COHORTS < app.cohorts.len()
}

fn has_wide_app(apps: &[App]) -> bool
    ensures { result ≡ list_any has_many_cohorts apps.now }
{
    apps.iter().any(|app| has_many_cohorts(app))
}

// rule: Small catalogue
/// Whether a catalogue is looked at for a page.
pub(crate) fn is_small(apps: &[App]) -> bool
    ensures { result ≡ is_small apps.now }
{
    !(MAX_WEIGHT < weight(apps)) && !has_wide_app(apps)
}
