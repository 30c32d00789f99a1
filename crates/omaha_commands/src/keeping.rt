// The apps that a batch leaves as they are.

ghost use Rattle.std.specs.Prelude.{◌≡◌, IfOk};
ghost use Rattle.std.specs.List.{list_any};
ghost use Rattle.catalogue.specs.Forms.{same_id};
ghost use Rattle.catalogue.specs.Histories.{app_named};
ghost use Rattle.omaha_commands.specs.Keeping.{kept_flags};

use catalogue::{Batch, Catalogue, Edit};
use std::alloc::{AllocError, Global};
use values::Text;

// The identifier of the app that an edit names.
fn app_named(edit: &Edit) -> &Text
    ensures { result.now ≡ app_named edit.now }
{
    match edit {
        Edit::AddApp(edit) => &edit.app,
        Edit::AddRelease(edit) => &edit.app,
        Edit::AddDiff(edit) => &edit.app,
        Edit::SetStone(edit) => &edit.app,
        Edit::SetWithdrawn(edit) => &edit.app,
        Edit::SetAudience(edit) => &edit.app,
        Edit::SetFloor(edit) => &edit.app,
        Edit::AddCohort(edit) => &edit.app,
        Edit::SetTarget(edit) => &edit.app,
        Edit::SetShare(edit) => &edit.app,
        Edit::SetRollback(edit) => &edit.app,
        Edit::SetOpen(edit) => &edit.app,
    }
}

fn names(edit: &Edit, id: &Text) -> bool
    ensures { result ≡ same_id (app_named edit.now) id.now }
{
    app_named(edit).as_str().eq_ignore_ascii_case(id.as_str())
}

// Whether an edit of a batch names an app, in any case of letters.
fn is_named(batch: &Batch, id: &Text) -> bool
    ensures { result ≡ list_any (λ edit. same_id (app_named edit) id.now) batch.now }
{
    batch.edits().iter().any(|edit| names(edit, id))
}

/// Flags the apps of a catalogue that no edit of a batch names.
pub(crate) fn kept_apps(
    alloc: Global,
    catalogue: &Catalogue,
    batch: &Batch,
) -> Result<Vec<bool>, AllocError>
    ensures { IfOk result (λ kept. kept.items ≡ kept_flags batch.now catalogue.now) }
{
    catalogue
        .apps()
        .iter()
        .map(|app| !is_named(batch, &app.id))
        .collect(alloc)
}
