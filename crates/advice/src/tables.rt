//! The tables of profiles and scripts.

ghost use Rattle.std.specs.Prelude.{◌≡◌, IfOk, map, option_map};
ghost use Rattle.advice.specs.declared.tables.Kind.TheVariants as kind;
ghost use Rattle.advice.specs.Tables.{form_by, form_of, header_of, holds_tables, inner_kind, keys_of, kind_words, outer_kind, strict_form, words_of};

use std::alloc::{AllocError, Global};

/// What a table is of: a document, or a part of one.
#[derive(Clone, Copy)]
pub(crate) enum Kind {
    Profile,
    Script,
    Mirror,
    App,
    Cohort,
    Release,
    Diff,
    Edit,
}

/// What such a table begins with.
pub(crate) fn header_of(kind: Kind) -> &'static str
    ensures { result.now ≡ header_of kind }
{
    match kind {
        Kind::Profile | Kind::Script => "[[",
        Kind::Mirror => "[[mirror]]",
        Kind::App => "[[app]]",
        Kind::Cohort => "[[app.cohort]]",
        Kind::Release => "[[app.release]]",
        Kind::Diff => "[[app.diff]]",
        Kind::Edit => "[[edit]]",
    }
}

/// Such a table, as it is printed.
pub(crate) fn kind_words(kind: Kind) -> &'static str
    ensures { result.now ≡ kind_words kind }
{
    match kind {
        Kind::Profile => "a profile",
        Kind::Script => "a script",
        Kind::Mirror => "a mirror",
        Kind::App => "an app",
        Kind::Cohort => "a cohort",
        Kind::Release => "a release",
        Kind::Diff => "a diff",
        Kind::Edit => "this edit",
    }
}

/// The kind of tables that a document holds under a key.
pub(crate) fn outer_kind(name: &str) -> Option<Kind>
    ensures { result ≡ outer_kind name.now }
{
    match name {
        "mirror" => Some(Kind::Mirror),
        "app" => Some(Kind::App),
        "edit" => Some(Kind::Edit),
        _ => None,
    }
}

/// The kind of tables that an app holds under a key.
pub(crate) fn inner_kind(name: &str) -> Option<Kind>
    ensures { result ≡ inner_kind name.now }
{
    match name {
        "cohort" => Some(Kind::Cohort),
        "release" => Some(Kind::Release),
        "diff" => Some(Kind::Diff),
        _ => None,
    }
}

// The keys of an edit.
fn keys_of_edit(verb: &str) -> &'static str
    ensures { result.now ≡ keys_of kind.Edit verb.now }
{
    match verb {
        "add_app" => "do app default",
        "add_release" => "do app version name size sha256",
        "add_cohort" => "do app cohort",
        "set_target" => "do app cohort target held",
        "set_share" => "do app cohort share",
        "set_open" => "do app cohort on",
        "add_diff" => "do app from to name size sha256",
        "set_stone" => "do app version on",
        "set_withdrawn" => "do app version on",
        "set_audience" => "do app version cohorts",
        "set_rollback" => "do app cohort on",
        "set_floor" => "do app version floor",
        _ =>
            "do app cohort share target held version on cohorts floor name size sha256 from to default",
    }
}

// rule: Keys of a table
/// The keys that a table may have, with a space between two.
pub(crate) fn keys_of(kind: Kind, verb: &str) -> &'static str
    ensures { result.now ≡ keys_of kind verb.now }
{
    match kind {
        Kind::Profile => "schema mirror app",
        Kind::Script => "schema base edit",
        Kind::Mirror => "name codebase budget",
        Kind::App => "id default cohort release diff",
        Kind::Cohort => "name target held share rollback open",
        Kind::Release => "version name size sha256 stone withdrawn audience floor",
        Kind::Diff => "from to name size sha256",
        Kind::Edit => keys_of_edit(verb),
    }
}

/// The parts of a string between spaces.
pub(crate) fn words_of<'t>(alloc: Global, keys: &'t str) -> Result<Vec<&'t str>, AllocError>
    ensures { IfOk result (λ words. map (λ word. word.now) words.items ≡ words_of keys.now) }
{
    keys.split(' ').collect(alloc)
}

fn holds_tables(kind: Kind, key: &str) -> bool
    ensures { result ≡ holds_tables kind key.now }
{
    match kind {
        Kind::Profile => matches!(key, "mirror" | "app"),
        Kind::Script => key == "edit",
        Kind::App => matches!(key, "cohort" | "release" | "diff"),
        _ => false,
    }
}

fn form_by(tables: bool, key: &str) -> &'static str
    ensures { result.now ≡ form_by tables key.now }
{
    match key {
        _ if tables => "one table after the other, each below its own [[..]]",
        "schema" => "1 or 2, without quotes",
        "base" => "the number of the published edition, without quotes",
        "share" => "a number from 0 to 1000, without quotes",
        "size" => "a number of bytes, without quotes",
        "budget" => "a number of bytes, without quotes",
        "stone" => "true or false, without quotes",
        "withdrawn" => "true or false, without quotes",
        "rollback" => "true or false, without quotes",
        "open" => "true or false, without quotes",
        "on" => "true or false, without quotes",
        "audience" => "a list of cohorts, as [\"stable\"]",
        "cohorts" => "a list of cohorts, as [\"stable\"]",
        "do" =>
            "one of \"add_app\", \"add_release\", \"add_cohort\", \"add_diff\", \"set_target\", \"set_share\", \"set_open\", \"set_stone\", \"set_withdrawn\", \"set_audience\", \"set_rollback\" and, in schema 2, \"set_floor\"",
        _ => "a string in quotes",
    }
}

// What a key holds if not each string will do.
fn strict_form(kind: Kind, key: &str) -> Option<&'static str>
    ensures { option_map (λ form. form.now) result ≡ strict_form kind key.now }
{
    match kind {
        Kind::Cohort if key == "name" => Some(
            "a name in quotes that no other cohort of the app has",
        ),
        Kind::Release if key == "floor" => {
            Some("a version in quotes, and schema = 2 at the top: schema 1 has no floors")
        }
        _ => None,
    }
}

// rule: Form of a key
/// What a key of a table holds.
pub(crate) fn form_of(kind: Kind, key: &str) -> &'static str
    ensures { result.now ≡ form_of kind key.now }
{
    match strict_form(kind, key) {
        Some(form) => form,
        None => form_by(holds_tables(kind, key), key),
    }
}
