//! Edits, compared field by field.

ghost use Rattle.std.specs.Prelude.{◌≡◌, ◌↔◌, IsTrue};

use crate::strings::{is_same_list, is_same_option, is_same_string};
use catalogue::{
    AddApp, AddCohort, AddDiff, AddRelease, Edit, SetAudience, SetFloor, SetOpen, SetRollback,
    SetShare, SetStone, SetTarget, SetWithdrawn,
};

fn is_same_app(one: &AddApp, other: &AddApp) -> bool
    ensures { IsTrue result ↔ (one.now ≡ other.now) }
{
    is_same_string(&one.app, &other.app) && is_same_string(&one.default, &other.default)
}

fn is_same_release(one: &AddRelease, other: &AddRelease) -> bool
    ensures { IsTrue result ↔ (one.now ≡ other.now) }
{
    is_same_string(&one.app, &other.app)
        && is_same_string(&one.version, &other.version)
        && is_same_string(&one.name, &other.name)
        && one.size == other.size
        && is_same_string(&one.sha256, &other.sha256)
}

fn is_same_diff(one: &AddDiff, other: &AddDiff) -> bool
    ensures { IsTrue result ↔ (one.now ≡ other.now) }
{
    is_same_string(&one.app, &other.app)
        && is_same_string(&one.from, &other.from)
        && is_same_string(&one.to, &other.to)
        && is_same_string(&one.name, &other.name)
        && one.size == other.size
        && is_same_string(&one.sha256, &other.sha256)
}

fn is_same_stone(one: &SetStone, other: &SetStone) -> bool
    ensures { IsTrue result ↔ (one.now ≡ other.now) }
{
    is_same_string(&one.app, &other.app)
        && is_same_string(&one.version, &other.version)
        && one.on == other.on
}

fn is_same_withdrawn(one: &SetWithdrawn, other: &SetWithdrawn) -> bool
    ensures { IsTrue result ↔ (one.now ≡ other.now) }
{
    is_same_string(&one.app, &other.app)
        && is_same_string(&one.version, &other.version)
        && one.on == other.on
}

fn is_same_audience(one: &SetAudience, other: &SetAudience) -> bool
    ensures { IsTrue result ↔ (one.now ≡ other.now) }
{
    is_same_string(&one.app, &other.app)
        && is_same_string(&one.version, &other.version)
        && is_same_list(&one.cohorts, &other.cohorts)
}

fn is_same_floor(one: &SetFloor, other: &SetFloor) -> bool
    ensures { IsTrue result ↔ (one.now ≡ other.now) }
{
    is_same_string(&one.app, &other.app)
        && is_same_string(&one.version, &other.version)
        && is_same_string(&one.floor, &other.floor)
}

fn is_same_cohort(one: &AddCohort, other: &AddCohort) -> bool
    ensures { IsTrue result ↔ (one.now ≡ other.now) }
{
    is_same_string(&one.app, &other.app) && is_same_string(&one.cohort, &other.cohort)
}

fn is_same_target(one: &SetTarget, other: &SetTarget) -> bool
    ensures { IsTrue result ↔ (one.now ≡ other.now) }
{
    is_same_string(&one.app, &other.app)
        && is_same_string(&one.cohort, &other.cohort)
        && is_same_option(&one.target, &other.target)
        && is_same_option(&one.held, &other.held)
}

fn is_same_share(one: &SetShare, other: &SetShare) -> bool
    ensures { IsTrue result ↔ (one.now ≡ other.now) }
{
    is_same_string(&one.app, &other.app)
        && is_same_string(&one.cohort, &other.cohort)
        && one.share == other.share
}

fn is_same_rollback(one: &SetRollback, other: &SetRollback) -> bool
    ensures { IsTrue result ↔ (one.now ≡ other.now) }
{
    is_same_string(&one.app, &other.app)
        && is_same_string(&one.cohort, &other.cohort)
        && one.on == other.on
}

fn is_same_open(one: &SetOpen, other: &SetOpen) -> bool
    ensures { IsTrue result ↔ (one.now ≡ other.now) }
{
    is_same_string(&one.app, &other.app)
        && is_same_string(&one.cohort, &other.cohort)
        && one.on == other.on
}

/// Whether two edits are of one kind and have the same fields.
pub(crate) fn is_same_edit(one: &Edit, other: &Edit) -> bool
    ensures { IsTrue result ↔ (one.now ≡ other.now) }
{
    match (one, other) {
        (Edit::AddApp(one), Edit::AddApp(other)) => is_same_app(one, other),
        (Edit::AddRelease(one), Edit::AddRelease(other)) => is_same_release(one, other),
        (Edit::AddDiff(one), Edit::AddDiff(other)) => is_same_diff(one, other),
        (Edit::SetStone(one), Edit::SetStone(other)) => is_same_stone(one, other),
        (Edit::SetWithdrawn(one), Edit::SetWithdrawn(other)) => is_same_withdrawn(one, other),
        (Edit::SetAudience(one), Edit::SetAudience(other)) => is_same_audience(one, other),
        (Edit::SetFloor(one), Edit::SetFloor(other)) => is_same_floor(one, other),
        (Edit::AddCohort(one), Edit::AddCohort(other)) => is_same_cohort(one, other),
        (Edit::SetTarget(one), Edit::SetTarget(other)) => is_same_target(one, other),
        (Edit::SetShare(one), Edit::SetShare(other)) => is_same_share(one, other),
        (Edit::SetRollback(one), Edit::SetRollback(other)) => is_same_rollback(one, other),
        (Edit::SetOpen(one), Edit::SetOpen(other)) => is_same_open(one, other),
        _ => false,
    }
}
