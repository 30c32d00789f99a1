// Which buckets a change of cohorts cuts off or moves, on an app with the cohorts `stable` and `beta`.

use crate::out_of_memory_tests::are_right;
use buckets::{Span, cut_off, cuts_nobody_off, has_target, moves, parts, width_of};
use catalogue::Cohort;
use fixtures::{DEMO, catalogue_of_script};
use std::alloc::Global;

// The cohorts of the app after some edits.
fn cohorts_after(alloc: Global, edits: &str) -> Option<&'static [Cohort]> {
    let catalogue = catalogue_of_script(alloc, DEMO, edits)?;
    let app = catalogue.apps().first()?;
    Some(app.cohorts.as_slice())
}

fn are(spans: &[Span], wanted: &[(u64, u64)]) -> bool {
    let pairs = spans.iter().map(|span| (span.start, span.end));
    spans.len() == wanted.len() && pairs.zip(wanted.iter()).all(|(one, other)| one == *other)
}

// Two settings of the cohorts, by edits, and what the change from the one to the other makes of `stable`.
struct Row {
    before: &'static str,
    after: &'static str,
    parts: &'static [(u64, u64)],
    cut_off: &'static [(u64, u64)],
    width: u128,
    moved: &'static [(u64, u64)],
    cuts_nobody_off: bool,
}

const ROWS: [Row; 6] = [
    // a share of 1% without a held release
    Row {
        before: r#"{ do = "set_target", app = "demo", cohort = "stable", target = "4.0" },"#,
        after: r#"{ do = "set_target", app = "demo", cohort = "stable", target = "4.0" },
            { do = "set_share", app = "demo", cohort = "stable", share = 10 },"#,
        parts: &[(0, 10), (10, 1000)],
        cut_off: &[(10, 1000)],
        width: 990,
        moved: &[(10, 1000)],
        cuts_nobody_off: false,
    },
    // the same with one
    Row {
        before: "",
        after: r#"{ do = "set_share", app = "demo", cohort = "stable", share = 10 },"#,
        parts: &[(0, 10), (10, 1000)],
        cut_off: &[],
        width: 0,
        moved: &[(10, 1000)],
        cuts_nobody_off: true,
    },
    // a wider share
    Row {
        before: r#"{ do = "set_share", app = "demo", cohort = "stable", share = 100 },"#,
        after: r#"{ do = "set_share", app = "demo", cohort = "stable", share = 500 },"#,
        parts: &[(0, 100), (100, 500), (500, 1000)],
        cut_off: &[],
        width: 0,
        moved: &[(100, 500)],
        cuts_nobody_off: true,
    },
    // the target is cleared at a share of a half
    Row {
        before: r#"{ do = "set_share", app = "demo", cohort = "stable", share = 500 },"#,
        after: r#"{ do = "set_share", app = "demo", cohort = "stable", share = 500 },
            { do = "set_target", app = "demo", cohort = "stable", held = "3.0" },"#,
        parts: &[(0, 500), (500, 1000)],
        cut_off: &[(0, 500)],
        width: 500,
        moved: &[(0, 500)],
        cuts_nobody_off: false,
    },
    // hints lead to a cohort without a target
    Row {
        before: "",
        after: r#"{ do = "set_target", app = "demo", cohort = "beta" },
            { do = "set_open", app = "demo", cohort = "beta", on = true },"#,
        parts: &[(0, 1000)],
        cut_off: &[],
        width: 0,
        moved: &[],
        cuts_nobody_off: false,
    },
    // and to one with a target
    Row {
        before: "",
        after: r#"{ do = "set_open", app = "demo", cohort = "beta", on = true },"#,
        parts: &[(0, 1000)],
        cut_off: &[],
        width: 0,
        moved: &[],
        cuts_nobody_off: true,
    },
];

// Whether a row's change comes to what the row says; `None` if memory ran out.
fn has_changed(alloc: Global, row: &Row) -> Option<bool> {
    let before = cohorts_after(alloc, row.before)?;
    let after = cohorts_after(alloc, row.after)?;
    let (one, other) = (before.first()?, after.first()?);
    let cut_off = cut_off(alloc, one, other).ok()?;
    Some(
        are(&parts(alloc, one, other).ok()?, row.parts)
            && are(&cut_off, row.cut_off)
            && are(&moves(alloc, one, other).ok()?, row.moved)
            && width_of(&cut_off) == row.width
            && cuts_nobody_off(before, after) == row.cuts_nobody_off,
    )
}

// rule: Parts of a cohort
// rule: Cut off bucket
// rule: Moved bucket
// rule: Cohorts of a client
// rule: Nobody is cut off
#[test]
fn changed_cohorts_cut_off_and_move_their_buckets(rt: HostRuntime) {
    for row in &ROWS {
        assert!(rt; has_changed(rt.alloc(), row) == Some(true));
    }
}

#[test]
fn changed_cohorts_without_memory(rt: HostRuntime) {
    for row in &ROWS {
        let first = has_changed(rt.alloc(), row);
        assert!(rt; are_right(first, has_changed(rt.alloc(), row)));
    }
}

// Whether the last bucket below the share and the first one above it have a target.
fn targets_at_the_share(alloc: Global) -> Option<(bool, bool)> {
    let cohorts = cohorts_after(
        alloc,
        r#"{ do = "set_target", app = "demo", cohort = "stable", target = "4.0" },
            { do = "set_share", app = "demo", cohort = "stable", share = 10 },"#,
    )?;
    let stable = cohorts.first()?;
    Some((has_target(stable, 9), has_target(stable, 10)))
}

// rule: Target of a bucket
#[test]
fn bucket_at_the_share_has_the_held_target(rt: HostRuntime) {
    assert!(rt; targets_at_the_share(rt.alloc()) == Some((true, false)));
}
