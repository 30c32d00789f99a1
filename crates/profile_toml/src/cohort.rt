//! The cohorts of an app of a profile: what their tables say, and their edits.

ghost use Rattle.std.specs.Prelude.{◌≡◌, ◌++◌, [], ◌∷◌, IfOk, OnOk};
ghost use Rattle.std.specs.List.{list_any};
ghost use Rattle.values.specs.Reading.{Reads};
ghost use Rattle.profile_toml.specs.Readers.{listed, placed};
ghost use Rattle.profile_toml.specs.Cohorts.{cohort_edits, cohort_of, cohorts_of, is_named, new_name, open_edits, rollback_edits, setting_edits, share_edits, target_edits};

use crate::tables::{BadEntry, TableList, TableReader};
use catalogue::{AddCohort, Edit, SetOpen, SetRollback, SetShare, SetTarget};
use std::alloc::{AllocError, Global};
use std::collections::BTreeSet;
use std::marker::Model;
use values::{Items, ReadError, Text};

/// A table `cohort`.
pub(crate) struct CohortEntry {
    /// The key `name`.
    pub name: Text,
    /// The key `target`, if it is given.
    pub target: Option<Text>,
    /// The key `held`, if it is given.
    pub held: Option<Text>,
    /// The key `share`, if it is given.
    pub share: Option<u64>,
    /// The key `rollback`, false if it is not given.
    pub rollback: bool,
    /// The key `open`, false if it is not given.
    pub hintable: bool,
}

// Written out, so that no caller proves again how each part is dropped.
impl Drop for CohortEntry {
    fn drop(self) {
        let CohortEntry {
            name: _,
            target: _,
            held: _,
            share: _,
            rollback: _,
            hintable: _,
        } = self;
    }
}

/// The cohorts of an app that were read, which contracts see as their list; a name is found among
/// theirs in logarithmic time.
struct Cohorts {
    entries: Items<CohortEntry>,
    names: BTreeSet<String>,
}

// Written out, so that no caller proves again how each part is dropped.
impl Drop for Cohorts {
    fn drop(self) {
        let Cohorts {
            entries: _,
            names: _,
        } = self;
    }
}

impl Model for Cohorts {
    ghost use Rattle.std.specs.Prelude.{List};
    ghost use Rattle.profile_toml.specs.CohortNames.{AreNames};
    ghost use Rattle.profile_toml.specs.declared.cohort.CohortEntry.{CohortEntry as Entry};

    ghost Value = { List Entry };

    ghost view = { λ cohorts. cohorts.entries };

    ghost invariant = { λ cohorts. AreNames cohorts.names cohorts.entries };
}

impl Cohorts {
    fn new(alloc: Global) -> Cohorts
        ensures { result ≡ [] }
    {
        Cohorts {
            entries: Items::empty(alloc),
            names: BTreeSet::new(alloc),
        }
    }

    fn has_name(&self, name: &str) -> bool
        ensures { result ≡ list_any (is_named name.now) self.now }
    {
        self.names.contains(name)
    }

    fn with(self, cohort: CohortEntry) -> Result<Cohorts, AllocError>
        ensures { IfOk result (λ longer. longer ≡ self ++ cohort ∷ []) }
    {
        let Cohorts {
            mut entries,
            mut names,
        } = self;
        let name = cohort.name.clone()?.into_string();
        names.insert(name)?;
        entries.push(cohort)?;
        Ok(Cohorts { entries, names })
    }

    fn into_entries(self) -> Items<CohortEntry>
        ensures { result ≡ self }
    {
        let Cohorts { entries, names: _ } = self;
        entries
    }
}

// rule: Name of a cohort in a profile
#[tactic(auto, unfolding(crate::specs::Cohorts::new_name))]
fn read_new_name(before: &Cohorts, table: &TableReader<'_>) -> Result<Text, ReadError<BadEntry>>
    ensures { Reads (λ name. name) result (new_name before.now (placed table.now)) }
{
    let name = table.string("name")?;
    if before.has_name(name.as_str()) {
        return table.reject("name");
    }
    Ok(name)
}

// rule: Cohort of a profile
#[tactic(auto, unfolding(crate::specs::Cohorts::cohort_of))]
fn read_cohort(
    before: &Cohorts,
    table: &TableReader<'_>,
) -> Result<CohortEntry, ReadError<BadEntry>>
    ensures { Reads (λ cohort. cohort) result (cohort_of before.now (placed table.now)) }
{
    table.check_keys(&["name", "target", "held", "share", "rollback", "open"])?;
    Ok(CohortEntry {
        name: read_new_name(before, table)?,
        target: table.optional_string("target")?,
        held: table.optional_string("held")?,
        share: table.optional_natural("share")?,
        rollback: table.optional_flag("rollback")?.unwrap_or(false),
        hintable: table.optional_flag("open")?.unwrap_or(false),
    })
}

/// Reads the cohorts of an app, no two of one name.
pub(crate) fn read_cohorts(
    alloc: Global,
    list: &TableList<'_>,
) -> Result<Items<CohortEntry>, ReadError<BadEntry>>
    ensures { Reads (λ cohorts. cohorts) result (cohorts_of (listed list.now)) }
{
    let values = list.values();
    let mut cohorts = Cohorts::new(alloc);
    for (index, value) in values.iter().enumerate() {
        let table = list.table(index, value)?;
        let cohort = read_cohort(&cohorts, &table)?;
        cohorts = cohorts.with(cohort)?;
    }
    Ok(cohorts.into_entries())
}

/// Pushes the edit that adds a cohort, unless it is the default one.
pub(crate) fn push_cohort(
    app: &Text,
    default: &Text,
    cohort: &CohortEntry,
    edits: &mut Items<Edit>,
) -> Result<(), AllocError>
    ensures { OnOk result
        (edits.new ≡ edits.old ++ cohort_edits app.now default.now cohort.now) }
{
    if cohort.name.as_str() == default.as_str() {
        return Ok(());
    }
    let edit = AddCohort {
        app: app.clone()?,
        cohort: cohort.name.clone()?,
    };
    edits.push(Edit::AddCohort(edit))
}

fn push_targets(app: &Text, cohort: &CohortEntry, edits: &mut Items<Edit>) -> Result<(), AllocError>
    ensures { OnOk result (edits.new ≡ edits.old ++ target_edits app.now cohort.now) }
{
    if cohort.target.is_none() && cohort.held.is_none() {
        return Ok(());
    }
    let edit = SetTarget {
        app: app.clone()?,
        cohort: cohort.name.clone()?,
        target: cohort.target.clone()?,
        held: cohort.held.clone()?,
    };
    edits.push(Edit::SetTarget(edit))
}

fn push_share(
    app: &Text,
    cohort: &Text,
    share: Option<u64>,
    edits: &mut Items<Edit>,
) -> Result<(), AllocError>
    ensures { OnOk result (edits.new ≡ edits.old ++ share_edits app.now cohort.now share) }
{
    let Some(share) = share else {
        return Ok(());
    };
    let edit = SetShare {
        app: app.clone()?,
        cohort: cohort.clone()?,
        share,
    };
    edits.push(Edit::SetShare(edit))
}

fn push_rollback(
    app: &Text,
    cohort: &CohortEntry,
    edits: &mut Items<Edit>,
) -> Result<(), AllocError>
    ensures { OnOk result (edits.new ≡ edits.old ++ rollback_edits app.now cohort.now) }
{
    if !cohort.rollback {
        return Ok(());
    }
    let edit = SetRollback {
        app: app.clone()?,
        cohort: cohort.name.clone()?,
        on: true,
    };
    edits.push(Edit::SetRollback(edit))
}

fn push_open(app: &Text, cohort: &CohortEntry, edits: &mut Items<Edit>) -> Result<(), AllocError>
    ensures { OnOk result (edits.new ≡ edits.old ++ open_edits app.now cohort.now) }
{
    if !cohort.hintable {
        return Ok(());
    }
    let edit = SetOpen {
        app: app.clone()?,
        cohort: cohort.name.clone()?,
        on: true,
    };
    edits.push(Edit::SetOpen(edit))
}

/// Pushes the edits that set what is given of a cohort.
pub(crate) fn push_settings(
    app: &Text,
    cohort: &CohortEntry,
    edits: &mut Items<Edit>,
) -> Result<(), AllocError>
    ensures { OnOk result (edits.new ≡ edits.old ++ setting_edits app.now cohort.now) }
{
    push_targets(app, cohort, edits)?;
    push_share(app, &cohort.name, cohort.share, edits)?;
    push_rollback(app, cohort, edits)?;
    push_open(app, cohort, edits)
}
