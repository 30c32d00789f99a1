//! The tracks whose graphs a batch may change.

ghost use Rattle.std.specs.Prelude.{◌≡◌, IfOk, Ok, length};
ghost use Rattle.catalogue.specs.Forms.{same_id};
ghost use Rattle.catalogue.specs.Batches.{outcome};
ghost use Rattle.catalogue.specs.Histories.{app_named, changes_releases, changes_releases_of};
ghost use Rattle.par_tables.specs.Marks.{KeepsOthers};
ghost use Rattle.editions.specs.Marks.{cohorts_left, may_change, same_cohort, same_target, AreEach, AreMarksOf, IsMark};

use catalogue::{Batch, Catalogue, Cohort, Edit, Version};
use std::alloc::{AllocError, Global};
use values::{Items, Text};

fn is_same_id(left: &str, right: &str) -> bool
    ensures { result ≡ same_id left.now right.now }
{
    left.eq_ignore_ascii_case(right)
}

// The identifier of the app that an edit names.
fn app_named(edit: &Edit) -> &Text
    ensures { result.now ≡ app_named edit.now }
{
    match edit {
        Edit::AddApp(edit) => &edit.app,
        Edit::AddRelease(edit) => &edit.app,
        Edit::AddDiff(edit) => &edit.app,
        Edit::SetStone(edit) => &edit.app,
        Edit::SetWithdrawn(edit) => &edit.app,
        Edit::SetAudience(edit) => &edit.app,
        Edit::SetFloor(edit) => &edit.app,
        Edit::AddCohort(edit) => &edit.app,
        Edit::SetTarget(edit) => &edit.app,
        Edit::SetShare(edit) => &edit.app,
        Edit::SetRollback(edit) => &edit.app,
        Edit::SetOpen(edit) => &edit.app,
    }
}

// rule: Edit of releases or differentials
fn changes_releases(edit: &Edit) -> bool
    ensures { result ≡ changes_releases edit.now }
{
    match edit {
        Edit::AddRelease(_)
        | Edit::AddDiff(_)
        | Edit::SetStone(_)
        | Edit::SetWithdrawn(_)
        | Edit::SetAudience(_)
        | Edit::SetFloor(_) => true,
        _ => false,
    }
}

// Whether an edit of a batch changes the releases or the differentials of an app, named in any case of letters.
fn changes_releases_of(batch: &Batch, id: &Text) -> bool
    ensures { result ≡ changes_releases_of batch.now id.now }
{
    batch.edits().iter().any(|edit| changes_releases(edit)
        && is_same_id(app_named(edit).as_str(), id.as_str()))
}

// The cohorts before a batch of an app whose releases and differentials it leaves as they are, none of another app.
fn cohorts_left<'a>(before: &'a Catalogue, batch: &Batch, index: usize) -> &'a [Cohort]
    ensures { result.now ≡ cohorts_left before.now batch.now index }
{
    match before.apps().get(index) {
        Some(app) => {
            if changes_releases_of(batch, &app.id) {
                &[]
            } else {
                app.cohorts.as_slice()
            }
        }
        None => &[],
    }
}

fn is_same_target(left: &Option<Version>, right: &Option<Version>) -> bool
    ensures { result ≡ same_target left.now right.now }
{
    match (left, right) {
        (Some(left), Some(right)) => left.is_equal(right),
        (None, None) => true,
        _ => false,
    }
}

// Whether two cohorts are equal but for their shares and their open flags.
fn is_same_cohort(left: &Cohort, right: &Cohort) -> bool
    ensures { result ≡ same_cohort left.now right.now }
{
    left.name.as_str() == right.name.as_str()
        && (left.rollback == right.rollback
            && (is_same_target(&left.target, &right.target)
                && is_same_target(&left.held, &right.held)))
}

// rule: Tracks that a batch may change
// Whether a cohort is new, or another but for its share and its open flag.
fn may_change(before: &[Cohort], index: usize, cohort: &Cohort) -> bool
    ensures { result ≡ may_change before.now index cohort.now }
{
    match before.get(index) {
        Some(old) => !is_same_cohort(old, cohort),
        None => true,
    }
}

// Marks the cohorts of an app that may have changed.
fn marks_of_app(
    alloc: Global,
    before: &[Cohort],
    made: &[Cohort],
) -> Result<Items<bool>, AllocError>
    ensures { IfOk result (λ marks. AreEach (IsMark before.now made.now) (length made.now) marks) }
{
    let mut marks = Vec::with_capacity(alloc, made.len())?;
    for index in 0..made.len() {
        marks.push(may_change(before, index, &made[index]))?;
    }
    Ok(Items::new(marks))
}

/// Marks the cohorts of each app whose tracks a batch may change, in the catalogue that it leads to.
pub(crate) fn marks_of(
    alloc: Global,
    before: &Catalogue,
    batch: &Batch,
    made: &Catalogue,
) -> Result<Vec<Items<bool>>, AllocError>
    requires { outcome batch.now before.now ≡ Ok made.now }
    ensures marks { IfOk result (λ marks. AreEach (AreMarksOf before.now batch.now made.now) (length made.now) marks.items) }
    ensures kept { IfOk result (λ marks. KeepsOthers before.now made.now marks.items) }
{
    catalogue::histories::other_releases();
    let mut marks = Vec::with_capacity(alloc, made.apps().len())?;
    for index in 0..made.apps().len() {
        let own = marks_of_app(
            alloc,
            cohorts_left(before, batch, index),
            made.cohorts(index),
        )?;
        marks.push(own)?;
    }
    Ok(marks)
}
