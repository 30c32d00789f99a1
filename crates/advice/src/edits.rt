//! Edits that are rejected.

ghost use Rattle.std.specs.Prelude.{◌≡◌, Some};
ghost use Rattle.advice.specs.Edits.{app_of, cohort_said, fault_named, hash_said, name_said, releases_said, remedy_of, said_of, share_said, size_said, subject_of, targets_said, verb_of, versions_said};

use catalogue::{Edit, Fault};
use std::fmt;
use streams::Shown;
use values::Text;

/// What is said of an edit.
#[derive(Clone, Copy)]
pub(crate) enum Subject<'a> {
    /// A key.
    Bare(&'a str),
    /// A key with a string.
    One(&'a str, &'a str),
    /// A key with a number.
    Number(&'a str, u64),
    /// Two keys with strings.
    Two(&'a str, &'a str, &'a str, &'a str),
}

impl fmt::Display for Subject<'_> {
    ghost output = { λ subject. Some (said_of subject).text };

    fn fmt<W: fmt::Write>(&self, f: &mut fmt::Formatter<W>) -> fmt::Result {
        match self {
            Subject::Bare(key) => write!(f, "{key}"),
            Subject::One(key, value) => {
                let value = Shown { string: value };
                write!(f, "{key} is {value}")
            }
            Subject::Number(key, value) => write!(f, "{key} is {value}"),
            Subject::Two(key, value, other, worth) => {
                let value = Shown { string: value };
                let worth = Shown { string: worth };
                write!(f, "{key} is {value} and {other} is {worth}")
            }
        }
    }
}

impl<'a> Subject<'a> {
    /// The key that it begins with.
    pub(crate) fn key(self) -> &'a str
        ensures { result.now ≡ (said_of self.entry).key }
    {
        match self {
            Subject::Bare(key) => key,
            Subject::One(key, _) => key,
            Subject::Number(key, _) => key,
            Subject::Two(key, _, _, _) => key,
        }
    }
}

/// What an edit does, as a script says it.
pub(crate) fn verb_of(edit: &Edit) -> &'static str
    ensures { result.now ≡ verb_of edit.now }
{
    match edit {
        Edit::AddApp(_) => "add_app",
        Edit::AddRelease(_) => "add_release",
        Edit::AddDiff(_) => "add_diff",
        Edit::SetStone(_) => "set_stone",
        Edit::SetWithdrawn(_) => "set_withdrawn",
        Edit::SetAudience(_) => "set_audience",
        Edit::SetFloor(_) => "set_floor",
        Edit::AddCohort(_) => "add_cohort",
        Edit::SetTarget(_) => "set_target",
        Edit::SetShare(_) => "set_share",
        Edit::SetRollback(_) => "set_rollback",
        Edit::SetOpen(_) => "set_open",
    }
}

/// The app of an edit.
pub(crate) fn app_of(edit: &Edit) -> &str
    ensures { result.now ≡ app_of edit.now }
{
    match edit {
        Edit::AddApp(edit) => edit.app.as_str(),
        Edit::AddRelease(edit) => edit.app.as_str(),
        Edit::AddDiff(edit) => edit.app.as_str(),
        Edit::SetStone(edit) => edit.app.as_str(),
        Edit::SetWithdrawn(edit) => edit.app.as_str(),
        Edit::SetAudience(edit) => edit.app.as_str(),
        Edit::SetFloor(edit) => edit.app.as_str(),
        Edit::AddCohort(edit) => edit.app.as_str(),
        Edit::SetTarget(edit) => edit.app.as_str(),
        Edit::SetShare(edit) => edit.app.as_str(),
        Edit::SetRollback(edit) => edit.app.as_str(),
        Edit::SetOpen(edit) => edit.app.as_str(),
    }
}

// The targets of a cohort that are set.
fn targets_of<'a>(target: &'a Option<Text>, held: &'a Option<Text>) -> Subject<'a>
    ensures { said_of result ≡ targets_said target.now held.now }
{
    match target {
        None => match held {
            None => Subject::Bare("target"),
            Some(held) => Subject::One("held", held.as_str()),
        },
        Some(target) => match held {
            None => Subject::One("target", target.as_str()),
            Some(held) => Subject::Two("target", target.as_str(), "held", held.as_str()),
        },
    }
}

fn versions_of(edit: &Edit) -> Subject<'_>
    ensures { said_of result ≡ versions_said edit.now }
{
    match edit {
        Edit::AddRelease(edit) => Subject::One("version", edit.version.as_str()),
        Edit::AddDiff(edit) => Subject::Two("from", edit.from.as_str(), "to", edit.to.as_str()),
        Edit::SetStone(edit) => Subject::One("version", edit.version.as_str()),
        Edit::SetWithdrawn(edit) => Subject::One("version", edit.version.as_str()),
        Edit::SetAudience(edit) => Subject::One("version", edit.version.as_str()),
        Edit::SetFloor(edit) => {
            Subject::Two(
                "version",
                edit.version.as_str(),
                "floor",
                edit.floor.as_str(),
            )
        }
        Edit::SetTarget(edit) => targets_of(&edit.target, &edit.held),
        _ => Subject::Bare("do"),
    }
}

// The versions that must be releases.
fn releases_of(edit: &Edit) -> Subject<'_>
    ensures { said_of result ≡ releases_said edit.now }
{
    match edit {
        Edit::SetFloor(edit) => Subject::One("version", edit.version.as_str()),
        _ => versions_of(edit),
    }
}

fn hash_of(edit: &Edit) -> Subject<'_>
    ensures { said_of result ≡ hash_said edit.now }
{
    match edit {
        Edit::AddRelease(edit) => Subject::One("sha256", edit.sha256.as_str()),
        Edit::AddDiff(edit) => Subject::One("sha256", edit.sha256.as_str()),
        _ => Subject::Bare("do"),
    }
}

fn size_of(edit: &Edit) -> Subject<'_>
    ensures { said_of result ≡ size_said edit.now }
{
    match edit {
        Edit::AddRelease(edit) => Subject::Number("size", edit.size),
        Edit::AddDiff(edit) => Subject::Number("size", edit.size),
        _ => Subject::Bare("do"),
    }
}

fn name_of(edit: &Edit) -> Subject<'_>
    ensures { said_of result ≡ name_said edit.now }
{
    match edit {
        Edit::AddApp(edit) => Subject::One("default", edit.default.as_str()),
        Edit::AddCohort(edit) => Subject::One("cohort", edit.cohort.as_str()),
        Edit::AddRelease(edit) => Subject::One("name", edit.name.as_str()),
        Edit::AddDiff(edit) => Subject::One("name", edit.name.as_str()),
        _ => Subject::Bare("do"),
    }
}

fn cohort_of(edit: &Edit) -> Subject<'_>
    ensures { said_of result ≡ cohort_said edit.now }
{
    match edit {
        Edit::AddCohort(edit) => Subject::One("cohort", edit.cohort.as_str()),
        Edit::SetTarget(edit) => Subject::One("cohort", edit.cohort.as_str()),
        Edit::SetShare(edit) => Subject::One("cohort", edit.cohort.as_str()),
        Edit::SetRollback(edit) => Subject::One("cohort", edit.cohort.as_str()),
        Edit::SetOpen(edit) => Subject::One("cohort", edit.cohort.as_str()),
        Edit::SetAudience(_) => Subject::Bare("cohorts"),
        _ => Subject::Bare("do"),
    }
}

fn share_of(edit: &Edit) -> Subject<'_>
    ensures { said_of result ≡ share_said edit.now }
{
    match edit {
        Edit::SetShare(edit) => Subject::Number("share", edit.share),
        _ => Subject::Bare("do"),
    }
}

// rule: Subject of a rejected edit
/// The key of an edit that its fault is about, with its value.
pub(crate) fn subject_of(edit: &Edit, fault: Fault) -> Subject<'_>
    ensures { said_of result ≡ subject_of edit.now fault }
{
    match fault {
        Fault::UnknownApp | Fault::AppExists | Fault::BadAppId => Subject::One("app", app_of(edit)),
        Fault::BadVersion | Fault::ReleaseExists | Fault::DiffExists | Fault::DiffBackward =>
            versions_of(edit),
        Fault::UnknownRelease => releases_of(edit),
        Fault::HashTaken | Fault::BadHash => hash_of(edit),
        Fault::BadSize => size_of(edit),
        Fault::BadName | Fault::NameTaken => name_of(edit),
        Fault::UnknownCohort | Fault::CohortExists => cohort_of(edit),
        Fault::BadShare => share_of(edit),
        Fault::Limit => Subject::Bare("do"),
    }
}

// rule: Remedy of a rejected edit
/// What is asked of such a value.
pub(crate) fn remedy_of(fault: Fault) -> &'static str
    ensures { result.now ≡ remedy_of fault }
{
    match fault {
        Fault::UnknownApp => "no app has this identifier (omaha explain C1)",
        Fault::AppExists => "an app has this identifier already (omaha explain C2)",
        Fault::BadAppId => "an identifier is 1 to 256 visible ASCII characters (omaha explain C3)",
        Fault::BadVersion =>
            "a version is 1 to 4 numbers with dots, without leading zeros, each below 4294967296 (omaha explain C4)",
        Fault::ReleaseExists => "the app has this release already (omaha explain C5)",
        Fault::HashTaken => "another release of the app has this package (omaha explain C6)",
        Fault::BadHash => "a hash is 64 digits 0-9a-f (omaha explain C7)",
        Fault::BadSize => "a size is 1 to 1099511627776 bytes (omaha explain C8)",
        Fault::BadName =>
            "a package's name is 1 to 128 of A-Z a-z 0-9 . _ - without a leading dot, a cohort's 1 to 32 of a-z 0-9 - (omaha explain C9)",
        Fault::NameTaken => "another package has this name (omaha explain C10)",
        Fault::UnknownRelease =>
            "the app must have each release that is named: omaha dump lists them (omaha explain C11)",
        Fault::DiffExists => "the app has this differential already (omaha explain C12)",
        Fault::DiffBackward => "a differential leads to a higher version (omaha explain C13)",
        Fault::UnknownCohort =>
            "the app has no such cohort: omaha dump lists them (omaha explain C14)",
        Fault::CohortExists => "the app has this cohort already (omaha explain C15)",
        Fault::BadShare => "a share is at most 1000 (omaha explain C16)",
        Fault::Limit =>
            "there are at most 64 apps, and in one app 512 releases, 16384 diffs and 32 cohorts (omaha explain C17)",
    }
}

/// The fault of a code that a server printed.
pub(crate) fn fault_named(code: &str) -> Option<Fault>
    ensures { result ≡ fault_named code.now }
{
    match code {
        "C1" => Some(Fault::UnknownApp),
        "C2" => Some(Fault::AppExists),
        "C3" => Some(Fault::BadAppId),
        "C4" => Some(Fault::BadVersion),
        "C5" => Some(Fault::ReleaseExists),
        "C6" => Some(Fault::HashTaken),
        "C7" => Some(Fault::BadHash),
        "C8" => Some(Fault::BadSize),
        "C9" => Some(Fault::BadName),
        "C10" => Some(Fault::NameTaken),
        "C11" => Some(Fault::UnknownRelease),
        "C12" => Some(Fault::DiffExists),
        "C13" => Some(Fault::DiffBackward),
        "C14" => Some(Fault::UnknownCohort),
        "C15" => Some(Fault::CohortExists),
        "C16" => Some(Fault::BadShare),
        "C17" => Some(Fault::Limit),
        _ => None,
    }
}
