ghost use Rattle.std.specs.Prelude.{◌≡◌, IfOk};
ghost use Rattle.std.specs.Result.{result_err};
ghost use Rattle.catalogue.specs.Draft.{IsIndexed};
ghost use Rattle.catalogue.specs.Edits.{fault_of};
ghost use Rattle.catalogue.specs.Validity.{IsValid};

use crate::draft::Draft;
use crate::edits::apps::AddApp;
use crate::edits::cohort_settings::{SetOpen, SetRollback, SetShare, SetTarget};
use crate::edits::cohorts::AddCohort;
use crate::edits::diffs::AddDiff;
use crate::edits::release_settings::{SetAudience, SetFloor, SetStone, SetWithdrawn};
use crate::edits::releases::AddRelease;
use crate::fault::Fault;
use std::alloc::AllocError;
use std::marker::Model;
use values::Items;

/// One change of a catalogue.
#[derive(Drop)]
pub enum Edit {
    /// An app, with its default cohort and no release.
    AddApp(AddApp),
    /// A release of an app.
    AddRelease(AddRelease),
    /// A differential of an app.
    AddDiff(AddDiff),
    /// The stone flag of a release.
    SetStone(SetStone),
    /// The withdrawn flag of a release.
    SetWithdrawn(SetWithdrawn),
    /// The audience of a release.
    SetAudience(SetAudience),
    /// The floor of a release.
    SetFloor(SetFloor),
    /// A cohort of an app, without targets, open to no hint.
    AddCohort(AddCohort),
    /// The two targets of a cohort.
    SetTarget(SetTarget),
    /// The share of a cohort.
    SetShare(SetShare),
    /// The rollback flag of a cohort.
    SetRollback(SetRollback),
    /// The open flag of a cohort.
    SetOpen(SetOpen),
}

impl Clone for Edit {
    ghost use Rattle.std.specs.Prelude.{◌≡◌};

    ghost is_clone = { λ edit copy. copy ≡ edit };

    fn clone(&self) -> Result<Edit, AllocError> {
        match self {
            Edit::AddApp(edit) => edit.clone().map(Edit::AddApp),
            Edit::AddRelease(edit) => edit.clone().map(Edit::AddRelease),
            Edit::AddDiff(edit) => edit.clone().map(Edit::AddDiff),
            Edit::SetStone(edit) => edit.clone().map(Edit::SetStone),
            Edit::SetWithdrawn(edit) => edit.clone().map(Edit::SetWithdrawn),
            Edit::SetAudience(edit) => edit.clone().map(Edit::SetAudience),
            Edit::SetFloor(edit) => edit.clone().map(Edit::SetFloor),
            Edit::AddCohort(edit) => edit.clone().map(Edit::AddCohort),
            Edit::SetTarget(edit) => edit.clone().map(Edit::SetTarget),
            Edit::SetShare(edit) => edit.clone().map(Edit::SetShare),
            Edit::SetRollback(edit) => edit.clone().map(Edit::SetRollback),
            Edit::SetOpen(edit) => edit.clone().map(Edit::SetOpen),
        }
    }
}

impl Edit {
    // rule: Faults of an edit, in order
    /// Returns the edit's first fault against the draft, if it has one.
    pub(crate) fn check(&self, draft: &Draft) -> Result<(), Fault>
        requires indexed { IsIndexed draft.now }
        requires valid { IsValid draft.now.apps }
        ensures { result_err result ≡ fault_of draft.now.apps self.now }
    {
        match self {
            Edit::AddApp(edit) => edit.check(draft),
            Edit::AddRelease(edit) => edit.check(draft),
            Edit::AddDiff(edit) => edit.check(draft),
            Edit::SetStone(edit) => edit.check(draft),
            Edit::SetWithdrawn(edit) => edit.check(draft),
            Edit::SetAudience(edit) => edit.check(draft),
            Edit::SetFloor(edit) => edit.check(draft),
            Edit::AddCohort(edit) => edit.check(draft),
            Edit::SetTarget(edit) => edit.check(draft),
            Edit::SetShare(edit) => edit.check(draft),
            Edit::SetRollback(edit) => edit.check(draft),
            Edit::SetOpen(edit) => edit.check(draft),
        }
    }
}

/// A list of edits that a catalogue applies whole or not at all.
#[derive(Clone)]
pub struct Batch {
    edits: Items<Edit>,
}

// Written out, so that no caller proves again how each part is dropped.
impl Drop for Batch {
    fn drop(self) {
        let Batch { edits: _ } = self;
    }
}

impl Model for Batch {
    ghost use Rattle.std.specs.Prelude.{List};
    ghost use Rattle.catalogue.specs.declared.edit.Edit.{Edit};

    ghost Value = { List Edit };

    ghost view = { λ b. b.edits };
}

impl Batch {
    /// Makes a batch of its edits, and takes no memory.
    pub fn new(edits: Vec<Edit>) -> Batch
        ensures { result ≡ edits.items }
    {
        Batch {
            edits: Items::new(edits),
        }
    }

    /// Borrows the edits, in order.
    pub fn edits(&self) -> &[Edit]
        ensures { result.now ≡ self.now }
    {
        self.edits.as_slice()
    }

    /// Makes an equal batch in new memory.
    pub fn copy(&self) -> Result<Batch, AllocError>
        ensures { IfOk result (λ copy. copy ≡ self.now) }
    {
        let edits = self.edits.clone()?;
        Ok(Batch { edits })
    }
}
