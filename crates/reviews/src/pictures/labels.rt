//! The labels of a picture.

ghost use Rattle.std.specs.Prelude.{◌≡◌, ◌++◌, IfOk, OnOk, string_bytes};
ghost use Rattle.reviews.specs.Labels.{arrow_tip, bytes_of, goal_at, goal_string, goals_string, half_string, held_word, kind_word, label_string, name_of, node_tip, pen_string, word_if};

use crate::names::{cohort_name, spelled_at};
use crate::pictures::arrows::Arrow;
use crate::pictures::nodes::{Goal, Node};
use catalogue::App;
use cohorts::Lane;
use payload_graph::Payload;
use std::alloc::{AllocError, Global};

/// A word, if a flag is set.
pub(crate) fn word_if(flag: bool, word: &'static str) -> &'static str
    ensures { result.now ≡ word_if flag word.entry.now }
{
    if flag { word } else { "" }
}

fn held_word(lane: Lane) -> &'static str
    ensures { result.now ≡ held_word lane }
{
    match lane {
        Lane::Target => "",
        Lane::Held => " held",
    }
}

fn goal_string(alloc: Global, app: &App, goal: &Goal) -> Result<String, AllocError>
    ensures { IfOk result (λ says. string_bytes says ≡ goal_string app.now goal.now) }
{
    let cohort = cohort_name(app, goal.cohort);
    let held = held_word(goal.lane);
    format!(in alloc; " [{cohort}{held}]")
}

// Adds a target, if the release is it.
fn push_goal(
    alloc: Global,
    text: &mut String,
    app: &App,
    release: usize,
    goal: &Goal,
) -> Result<(), AllocError>
    ensures { OnOk result (string_bytes text.new ≡ string_bytes text.old ++ goal_at app.now release goal.now) }
{
    if goal.release != release {
        return Ok(());
    }
    let says = goal_string(alloc, app, goal)?;
    text.push_str(says.as_str())
}

fn push_goals(
    alloc: Global,
    text: &mut String,
    app: &App,
    release: usize,
    goals: &[Goal],
) -> Result<(), AllocError>
    ensures { OnOk result (string_bytes text.new ≡ string_bytes text.old ++ goals_string app.now release goals.now) }
{
    for goal in goals {
        push_goal(alloc, text, app, release, goal)?;
    }
    Ok(())
}

/// The cohorts of which a release is the target, each in brackets.
pub(crate) fn goals_string(
    alloc: Global,
    app: &App,
    release: usize,
    goals: &[Goal],
) -> Result<String, AllocError>
    ensures { IfOk result (λ says. string_bytes says ≡ goals_string app.now release goals.now) }
{
    let mut text = String::new(alloc);
    push_goals(alloc, &mut text, app, release, goals)?;
    Ok(text)
}

// rule: Label of a release
/// The version of a release, and the cohorts of which it is the target.
pub(crate) fn label_string(
    alloc: Global,
    app: &App,
    release: usize,
    goals: &[Goal],
) -> Result<String, AllocError>
    ensures { IfOk result (λ says. string_bytes says ≡ label_string app.now release goals.now) }
{
    let goals = goals_string(alloc, app, release, goals)?;
    let version = spelled_at(app, release);
    let goals = goals.as_str();
    format!(in alloc; "{version}{goals}")
}

/// The name of a package; empty if it isn't there.
fn name_of(app: &App, payload: Payload) -> &str
    ensures { result.now ≡ name_of app.now payload }
{
    match payload {
        Payload::Full(release) => match app.releases.as_slice().get(release) {
            Some(there) => there.name.as_str(),
            None => "",
        },
        Payload::Differ(index) => match app.diffs.as_slice().get(index) {
            Some(there) => there.get().name.as_str(),
            None => "",
        },
    }
}

/// The bytes of a package; 0 if it isn't there.
pub(crate) fn bytes_of(app: &App, payload: Payload) -> u64
    ensures { result ≡ bytes_of app.now payload }
{
    match payload {
        Payload::Full(release) => match app.releases.as_slice().get(release) {
            Some(there) => there.size,
            None => 0,
        },
        Payload::Differ(index) => match app.diffs.as_slice().get(index) {
            Some(there) => there.get().size,
            None => 0,
        },
    }
}

/// What is said of a release: its version, its full package, and what it is.
pub(crate) fn node_tip(alloc: Global, app: &App, node: &Node) -> Result<String, AllocError>
    ensures { IfOk result (λ says. string_bytes says ≡ node_tip app.now node.now) }
{
    let version = spelled_at(app, node.release);
    let name = name_of(app, Payload::Full(node.release));
    let bytes = bytes_of(app, Payload::Full(node.release));
    let stone = word_if(node.stone, ", stepping stone");
    let withdrawn = word_if(node.withdrawn, ", withdrawn");
    let goal = word_if(node.goal, ", target");
    let stuck = word_if(node.stuck, ", stuck clients");
    format!(in alloc; "{version}: {name}, {bytes} bytes{stone}{withdrawn}{goal}{stuck}")
}

/// What is said of a package: where it leads from and to, its name and its bytes.
pub(crate) fn arrow_tip(alloc: Global, app: &App, arrow: &Arrow) -> Result<String, AllocError>
    ensures { IfOk result (λ says. string_bytes says ≡ arrow_tip app.now arrow.now) }
{
    let from = spelled_at(app, arrow.from);
    let to = spelled_at(app, arrow.to);
    let name = name_of(app, arrow.payload);
    let bytes = bytes_of(app, arrow.payload);
    format!(in alloc; "{from} to {to}: {name}, {bytes} bytes")
}

/// The kind of an arrow: a downgrade, else a full package or a differential.
pub(crate) fn kind_word(arrow: &Arrow) -> &'static str
    ensures { result.now ≡ kind_word arrow.now }
{
    if arrow.to < arrow.from {
        return "down";
    }
    match arrow.payload {
        Payload::Full(_) => "full",
        Payload::Differ(_) => "diff",
    }
}

// Half of a number, with one decimal.
fn half_string(alloc: Global, number: usize) -> Result<String, AllocError>
    ensures { IfOk result (λ says. string_bytes says ≡ half_string number) }
{
    let whole = number / 2;
    let tenths = number % 2 * 5;
    format!(in alloc; "{whole}.{tenths}")
}

// rule: Width of an arrow
/// The width of a package's arrow: a half for each decimal digit of its bytes.
pub(crate) fn pen_string(alloc: Global, bytes: u64) -> Result<String, AllocError>
    ensures { IfOk result (λ says. string_bytes says ≡ pen_string bytes) }
{
    let digits = format!(in alloc; "{bytes}")?;
    half_string(alloc, digits.len())
}
