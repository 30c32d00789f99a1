//! The edits of a script.

ghost use Rattle.std.specs.Prelude.{◌≡◌};
ghost use Rattle.values.specs.Reading.{Reads};
ghost use Rattle.profile_toml.specs.Readers.{placed};
ghost use Rattle.profile_toml.specs.ScriptEdits.{app_added, audience_set, cohort_added, diff_added, edit_in, edit_of, floor_set, open_set, release_added, rollback_set, share_set, stone_set, target_set, verb_named, verb_of, withdrawn_set};
ghost use Rattle.profile_toml.specs.declared.document.Schema.TheVariants.{One};

use crate::diff::read_diff_package;
use crate::document::Schema;
use crate::release::read_package;
use crate::tables::{BadEntry, TableKind, TableReader};
use catalogue::{
    AddApp, AddCohort, AddDiff, AddRelease, Edit, SetAudience, SetFloor, SetOpen, SetRollback,
    SetShare, SetStone, SetTarget, SetWithdrawn,
};
use values::ReadError;

/// A kind of edit, which a script names by `do`.
#[derive(Clone, Copy)]
enum Verb {
    AddApp,
    AddRelease,
    AddCohort,
    SetTarget,
    SetShare,
    SetOpen,
    AddDiff,
    SetStone,
    SetWithdrawn,
    SetAudience,
    SetFloor,
    SetRollback,
}

impl Verb {
    fn in_schema_1(name: &str) -> Option<Verb>
        ensures { result ≡ verb_named One name.now }
    {
        match name {
            "add_app" => Some(Verb::AddApp),
            "add_release" => Some(Verb::AddRelease),
            "add_cohort" => Some(Verb::AddCohort),
            "set_target" => Some(Verb::SetTarget),
            "set_share" => Some(Verb::SetShare),
            "set_open" => Some(Verb::SetOpen),
            "add_diff" => Some(Verb::AddDiff),
            "set_stone" => Some(Verb::SetStone),
            "set_withdrawn" => Some(Verb::SetWithdrawn),
            "set_audience" => Some(Verb::SetAudience),
            "set_rollback" => Some(Verb::SetRollback),
            _ => None,
        }
    }

    fn from_name(schema: Schema, name: &str) -> Option<Verb>
        ensures { result ≡ verb_named schema name.now }
    {
        match schema {
            Schema::One => Verb::in_schema_1(name),
            Schema::Two if name == "set_floor" => Some(Verb::SetFloor),
            Schema::Two => Verb::in_schema_1(name),
        }
    }
}

#[tactic(auto, unfolding(crate::specs::ScriptEdits::verb_of))]
fn read_verb(schema: Schema, table: &TableReader<'_>) -> Result<Verb, ReadError<BadEntry>>
    ensures { Reads (λ verb. verb) result (verb_of schema (placed table.now)) }
{
    let name = table.string("do")?;
    match Verb::from_name(schema, name.as_str()) {
        Some(verb) => Ok(verb),
        None => table.reject("do"),
    }
}

#[tactic(auto, unfolding(crate::specs::ScriptEdits::app_added))]
fn read_add_app(table: &TableReader<'_>) -> Result<AddApp, ReadError<BadEntry>>
    ensures { Reads (λ edit. edit) result (app_added (placed table.now)) }
{
    table.check_keys(&["do", "app", "default"])?;
    Ok(AddApp {
        app: table.string("app")?,
        default: table.string("default")?,
    })
}

#[tactic(auto, unfolding(crate::specs::ScriptEdits::release_added))]
fn read_add_release(table: &TableReader<'_>) -> Result<AddRelease, ReadError<BadEntry>>
    ensures { Reads (λ edit. edit) result (release_added (placed table.now)) }
{
    table.check_keys(&["do", "app", "version", "name", "size", "sha256"])?;
    let app = table.string("app")?;
    Ok(read_package(table)?.added_to(app))
}

#[tactic(auto, unfolding(crate::specs::ScriptEdits::cohort_added))]
fn read_add_cohort(table: &TableReader<'_>) -> Result<AddCohort, ReadError<BadEntry>>
    ensures { Reads (λ edit. edit) result (cohort_added (placed table.now)) }
{
    table.check_keys(&["do", "app", "cohort"])?;
    Ok(AddCohort {
        app: table.string("app")?,
        cohort: table.string("cohort")?,
    })
}

#[tactic(auto, unfolding(crate::specs::ScriptEdits::target_set))]
fn read_set_target(table: &TableReader<'_>) -> Result<SetTarget, ReadError<BadEntry>>
    ensures { Reads (λ edit. edit) result (target_set (placed table.now)) }
{
    table.check_keys(&["do", "app", "cohort", "target", "held"])?;
    Ok(SetTarget {
        app: table.string("app")?,
        cohort: table.string("cohort")?,
        target: table.optional_string("target")?,
        held: table.optional_string("held")?,
    })
}

#[tactic(auto, unfolding(crate::specs::ScriptEdits::share_set))]
fn read_set_share(table: &TableReader<'_>) -> Result<SetShare, ReadError<BadEntry>>
    ensures { Reads (λ edit. edit) result (share_set (placed table.now)) }
{
    table.check_keys(&["do", "app", "cohort", "share"])?;
    Ok(SetShare {
        app: table.string("app")?,
        cohort: table.string("cohort")?,
        share: table.natural("share")?,
    })
}

#[tactic(auto, unfolding(crate::specs::ScriptEdits::open_set))]
fn read_set_open(table: &TableReader<'_>) -> Result<SetOpen, ReadError<BadEntry>>
    ensures { Reads (λ edit. edit) result (open_set (placed table.now)) }
{
    table.check_keys(&["do", "app", "cohort", "on"])?;
    Ok(SetOpen {
        app: table.string("app")?,
        cohort: table.string("cohort")?,
        on: table.flag("on")?,
    })
}

#[tactic(auto, unfolding(crate::specs::ScriptEdits::diff_added))]
fn read_add_diff(table: &TableReader<'_>) -> Result<AddDiff, ReadError<BadEntry>>
    ensures { Reads (λ edit. edit) result (diff_added (placed table.now)) }
{
    table.check_keys(&["do", "app", "from", "to", "name", "size", "sha256"])?;
    let app = table.string("app")?;
    Ok(read_diff_package(table)?.added_to(app))
}

#[tactic(auto, unfolding(crate::specs::ScriptEdits::stone_set))]
fn read_set_stone(table: &TableReader<'_>) -> Result<SetStone, ReadError<BadEntry>>
    ensures { Reads (λ edit. edit) result (stone_set (placed table.now)) }
{
    table.check_keys(&["do", "app", "version", "on"])?;
    Ok(SetStone {
        app: table.string("app")?,
        version: table.string("version")?,
        on: table.flag("on")?,
    })
}

#[tactic(auto, unfolding(crate::specs::ScriptEdits::withdrawn_set))]
fn read_set_withdrawn(table: &TableReader<'_>) -> Result<SetWithdrawn, ReadError<BadEntry>>
    ensures { Reads (λ edit. edit) result (withdrawn_set (placed table.now)) }
{
    table.check_keys(&["do", "app", "version", "on"])?;
    Ok(SetWithdrawn {
        app: table.string("app")?,
        version: table.string("version")?,
        on: table.flag("on")?,
    })
}

#[tactic(auto, unfolding(crate::specs::ScriptEdits::audience_set))]
fn read_set_audience(table: &TableReader<'_>) -> Result<SetAudience, ReadError<BadEntry>>
    ensures { Reads (λ edit. edit) result (audience_set (placed table.now)) }
{
    table.check_keys(&["do", "app", "version", "cohorts"])?;
    Ok(SetAudience {
        app: table.string("app")?,
        version: table.string("version")?,
        cohorts: table.optional_strings("cohorts")?,
    })
}

#[tactic(auto, unfolding(crate::specs::ScriptEdits::floor_set))]
fn read_set_floor(table: &TableReader<'_>) -> Result<SetFloor, ReadError<BadEntry>>
    ensures { Reads (λ edit. edit) result (floor_set (placed table.now)) }
{
    table.check_keys(&["do", "app", "version", "floor"])?;
    Ok(SetFloor {
        app: table.string("app")?,
        version: table.string("version")?,
        floor: table.string("floor")?,
    })
}

#[tactic(auto, unfolding(crate::specs::ScriptEdits::rollback_set))]
fn read_set_rollback(table: &TableReader<'_>) -> Result<SetRollback, ReadError<BadEntry>>
    ensures { Reads (λ edit. edit) result (rollback_set (placed table.now)) }
{
    table.check_keys(&["do", "app", "cohort", "on"])?;
    Ok(SetRollback {
        app: table.string("app")?,
        cohort: table.string("cohort")?,
        on: table.flag("on")?,
    })
}

#[tactic(auto, unfolding(crate::specs::ScriptEdits::edit_in))]
fn read_edit_of(verb: Verb, table: &TableReader<'_>) -> Result<Edit, ReadError<BadEntry>>
    ensures { Reads (λ edit. edit) result (edit_in verb (placed table.now)) }
{
    match verb {
        Verb::AddApp => read_add_app(table).map(Edit::AddApp),
        Verb::AddRelease => read_add_release(table).map(Edit::AddRelease),
        Verb::AddCohort => read_add_cohort(table).map(Edit::AddCohort),
        Verb::SetTarget => read_set_target(table).map(Edit::SetTarget),
        Verb::SetShare => read_set_share(table).map(Edit::SetShare),
        Verb::SetOpen => read_set_open(table).map(Edit::SetOpen),
        Verb::AddDiff => read_add_diff(table).map(Edit::AddDiff),
        Verb::SetStone => read_set_stone(table).map(Edit::SetStone),
        Verb::SetWithdrawn => read_set_withdrawn(table).map(Edit::SetWithdrawn),
        Verb::SetAudience => read_set_audience(table).map(Edit::SetAudience),
        Verb::SetFloor => read_set_floor(table).map(Edit::SetFloor),
        Verb::SetRollback => read_set_rollback(table).map(Edit::SetRollback),
    }
}

// rule: Edit of a script
#[tactic(auto, unfolding(crate::specs::ScriptEdits::edit_of))]
fn read_edit(schema: Schema, table: &TableReader<'_>) -> Result<Edit, ReadError<BadEntry>>
    ensures { Reads (λ edit. edit) result (edit_of schema (placed table.now)) }
{
    let verb = read_verb(schema, table)?;
    read_edit_of(verb, table)
}

/// The tables `edit` of a script of a schema.
#[derive(Clone, Copy)]
pub(crate) struct EditTable {
    pub schema: Schema,
}

impl TableKind for EditTable {
    ghost use Rattle.profile_toml.specs.ScriptEdits.{edit_of};

    type Record = Edit;

    ghost reads = { λ kind. edit_of kind.schema };

    fn read(&self, table: &TableReader<'_>) -> Result<Edit, ReadError<BadEntry>> {
        read_edit(self.schema, table)
    }
}
