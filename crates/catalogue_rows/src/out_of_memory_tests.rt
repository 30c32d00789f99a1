// Calls that run out of memory: what is then as before, and that the same call with memory succeeds.
//
// In the gate no allocation fails. `make allocations` lets each one of a test fail in turn, so of two tries one fails at most.

use crate::kept::builds;
use catalogue::Catalogue;
use fixtures::{
    DEMO, catalogue_in_place, catalogue_of_copied_batch, catalogue_of_profile, catalogue_of_script,
    copy_of_catalogue, keep,
};
use par_tables::{Free, build_for};
use price_cert::Certified;
use std::alloc::Global;
use std::thread::Threads;
use values::Items;

/// Whether one of two tries came to what it should, and none to anything else; `None` is a try that ran out of memory.
pub(crate) fn are_right(first: Option<bool>, second: Option<bool>) -> bool {
    first != Some(false) && second != Some(false) && (first.is_some() || second.is_some())
}

// An app of two releases and a differential.
const WRITTEN: &str = r#"schema = 2

[[app]]
default = "stable"
id = "demo"

[[app.cohort]]
name = "stable"
target = "2.0"

[[app.diff]]
from = "1.0"
name = "demo-1.0-2.0.bin"
sha256 = "1212121212121212121212121212121212121212121212121212121212121212"
size = 300
to = "2.0"

[[app.release]]
audience = ["stable"]
name = "demo-1.0.bin"
sha256 = "1111111111111111111111111111111111111111111111111111111111111111"
size = 1000
version = "1.0"

[[app.release]]
floor = "1.0"
name = "demo-2.0.bin"
sha256 = "2222222222222222222222222222222222222222222222222222222222222222"
size = 1200
version = "2.0"

[[mirror]]
budget = 1000
codebase = "http://m0.example/p/"
name = "m0"
"#;

// Whether a catalogue has the app with its releases and its differential.
fn is_made(catalogue: &Catalogue) -> bool {
    catalogue.apps().len() == 1
        && catalogue.releases(0).len() == 2
        && catalogue.diffs(0).len() == 1
        && catalogue.package("demo-2.0.bin").is_some()
}

// Whether a profile's batch makes its catalogue in place.
fn applies(alloc: Global) -> Option<bool> {
    Some(is_made(catalogue_in_place(alloc, WRITTEN)?))
}

// rule: Batch
#[test]
fn apply_without_memory(rt: HostRuntime) {
    assert!(rt; are_right(applies(rt.alloc()), applies(rt.alloc())));
}

// Whether a catalogue's copy is like it.
fn copies_catalogue(alloc: Global) -> Option<bool> {
    let catalogue = catalogue_of_profile(alloc, WRITTEN)?;
    let copy = copy_of_catalogue(alloc, catalogue)?;
    Some(is_made(copy) && is_made(catalogue))
}

#[test]
fn catalogue_copy_without_memory(rt: HostRuntime) {
    assert!(rt; are_right(copies_catalogue(rt.alloc()), copies_catalogue(rt.alloc())));
}

// Whether the copy of a batch makes the catalogue that the batch makes.
fn copies_batch(alloc: Global) -> Option<bool> {
    Some(is_made(catalogue_of_copied_batch(alloc, WRITTEN)?))
}

#[test]
fn batch_copy_without_memory(rt: HostRuntime) {
    assert!(rt; are_right(copies_batch(rt.alloc()), copies_batch(rt.alloc())));
}

// Whether the tables that are made by two workers are those of one.
fn builds_by_two<R: Threads>(rt: &R, alloc: Global) -> Option<bool> {
    builds(rt, alloc, catalogue_of_script(alloc, DEMO, "")?, 2)
}

// rule: Tables of a catalogue
#[test]
fn build_and_tables_without_memory(rt: HostRuntime) {
    let first = builds_by_two(&rt, rt.alloc());
    assert!(rt; are_right(first, builds_by_two(&rt, rt.alloc())));
}

// The tables of both cohorts of the app, or of none; `None` if memory ran out.
fn built_for<R: Threads>(
    rt: &R,
    alloc: Global,
    catalogue: &Catalogue,
    mark: bool,
) -> Option<&'static Vec<Certified>> {
    let marks = [Items::new(vec![in alloc; mark; 2].ok()?)];
    keep(
        alloc,
        build_for(rt, alloc, catalogue, &marks, 2, &Free).ok()?,
    )
}

// Whether the tables are made of the cohorts that are marked, and of no other.
fn builds_for<R: Threads>(rt: &R, alloc: Global) -> Option<bool> {
    let catalogue = catalogue_of_script(alloc, DEMO, "")?;
    let marked = built_for(rt, alloc, catalogue, true)?;
    let none = built_for(rt, alloc, catalogue, false)?;
    Some(marked.len() == 4 && none.is_empty())
}

// rule: Tables of marked cohorts
#[test]
fn build_for_without_memory(rt: HostRuntime) {
    let first = builds_for(&rt, rt.alloc());
    assert!(rt; are_right(first, builds_for(&rt, rt.alloc())));
}
