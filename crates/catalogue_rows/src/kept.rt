// Tables made by several threads, and those that an edition keeps, beside the tables made from nothing.

ghost use Rattle.std.specs.Prelude.{◌≤◌};

use catalogue::Catalogue;
use editions::Edition;
use fixtures::{DEMO, catalogue_of_script, empty_edition, keep, next_of_script};
use par_tables::{Gate, build, tables};
use price_cert::Certified;
use std::alloc::Global;
use std::sync::atomic::{AtomicU64, Ordering};
use std::thread;
use std::thread::Threads;
use std::time::{Clock, Duration};

// How many pieces began, and how many tables they have.
#[derive(Drop)]
struct Counter {
    pieces: AtomicU64,
    tables: AtomicU64,
}

impl Counter {
    fn new() -> Counter {
        Counter {
            pieces: AtomicU64::new(0),
            tables: AtomicU64::new(0),
        }
    }
}

impl Gate for Counter {
    fn begin(&self, _piece: usize, tables: usize) {
        self.pieces.fetch_add(1, Ordering::SeqCst);
        self.tables.fetch_add(tables as u64, Ordering::SeqCst);
    }
}

// Holds each of two pieces until the other has begun, for 200000 turns at most.
#[derive(Drop)]
struct Holder<'a, R> {
    clock: &'a R,
    first: AtomicU64,
    second: AtomicU64,
    gave_up: AtomicU64,
}

impl<'a, R: Clock> Holder<'a, R> {
    fn new(clock: &'a R) -> Holder<'a, R> {
        Holder {
            clock,
            first: AtomicU64::new(0),
            second: AtomicU64::new(0),
            gave_up: AtomicU64::new(0),
        }
    }

    // Sets a piece's own mark, and waits for the other's.
    fn meet(&self, own: &AtomicU64, other: &AtomicU64) {
        own.store(1, Ordering::SeqCst);
        for _turn in 0..200000u32 {
            if other.load(Ordering::SeqCst) == 1 {
                return;
            }
            thread::sleep(self.clock, Duration::from_micros(1));
        }
        self.gave_up.store(1, Ordering::SeqCst);
    }
}

impl<R: Clock> Gate for Holder<'_, R> {
    fn begin(&self, piece: usize, _tables: usize) {
        match piece {
            0 => self.meet(&self.first, &self.second),
            _ => self.meet(&self.second, &self.first),
        }
    }
}

// Whether two lists of tables have the same keys and rows.
fn are_same(left: &[Certified], right: &[Certified]) -> bool {
    if left.len() != right.len() {
        return false;
    }
    for index in 0..left.len() {
        let is_same = left[index].key() == right[index].key()
            && left[index].rows() == right[index].rows();
        if !is_same {
            return false;
        }
    }
    true
}

/// Whether so many workers make the list of a catalogue's tables, each with a piece of it.
pub(crate) fn builds<R: Threads>(
    rt: &R,
    alloc: Global,
    catalogue: &Catalogue,
    workers: usize,
) -> Option<bool>
    requires { (1 ≤ workers) × (workers ≤ 16) }
{
    let counter = Counter::new();
    let built = keep(alloc, build(rt, alloc, catalogue, workers, &counter).ok()?)?;
    let whole = keep(alloc, tables(alloc, catalogue).ok()?)?;
    let is_counted = counter.pieces.load(Ordering::SeqCst) == workers as u64
        && counter.tables.load(Ordering::SeqCst) == built.len() as u64;
    Some(is_counted && are_same(built, whole.as_slice()))
}

// Whether 1, 2, 3, 5 and 16 workers do.
fn builds_by_any<R: Threads>(rt: &R, alloc: Global, script: &str, edits: &str) -> Option<bool> {
    let catalogue = catalogue_of_script(alloc, script, edits)?;
    for workers in [1usize, 2, 3, 5, 16] {
        let workers = workers.clamp(1, 16);
        if builds(rt, alloc, catalogue, workers) != Some(true) {
            return Some(false);
        }
    }
    Some(true)
}

// A script without edits.
const NONE: &str = "schema = 2\nbase = 0\nedit = [\n";

// One table alone.
const ONE: &str = r#"{ do = "add_app", app = "one", default = "main" },
{ do = "add_release", app = "one", version = "1.0", name = "one-1.0.bin", size = 5, sha256 = "7777777777777777777777777777777777777777777777777777777777777777" },
{ do = "set_target", app = "one", cohort = "main", target = "1.0" }"#;

// The first script, and edits more, whose tables they don't make; `none` if there is none.
fn wrong_script<R: Threads>(rt: &R, alloc: Global) -> &'static str {
    for (script, edits) in [(NONE, ""), (NONE, ONE), (DEMO, ""), (DEMO, ONE)] {
        if builds_by_any(rt, alloc, script, edits) != Some(true) {
            return script;
        }
    }
    "none"
}

// rule: Piece of tables
// rule: Tables of a catalogue
#[test]
fn any_number_of_workers_makes_the_same_list(rt: HostRuntime) {
    let wrong = wrong_script(&rt, rt.alloc());
    assert!(rt; wrong == "none", "{wrong}");
}

// Whether two workers make the list of a catalogue's tables at once.
fn build_at_once<R: Threads + Sync + Clock>(rt: &R, alloc: Global) -> Option<bool> {
    let holder = Holder::new(rt);
    let catalogue = catalogue_of_script(alloc, DEMO, "")?;
    let built = keep(alloc, build(rt, alloc, catalogue, 2, &holder).ok()?)?;
    let whole = keep(alloc, tables(alloc, catalogue).ok()?)?;
    let is_held = holder.gave_up.load(Ordering::SeqCst) == 0;
    Some(is_held && built.len() == 4 && are_same(built, whole.as_slice()))
}

#[test]
fn pieces_are_made_at_once(rt: HostRuntime) {
    assert!(rt; build_at_once(&rt, rt.alloc()) == Some(true));
}

// The edition after a batch, and how many tables its gate counted.
fn next_of<R: Threads>(
    rt: &R,
    alloc: Global,
    edition: &Edition,
    script: &str,
    edits: &str,
) -> Option<(&'static Edition, u64)> {
    let counter = Counter::new();
    let next = next_of_script(rt, alloc, edition, script, edits, &counter)?;
    Some((next, counter.tables.load(Ordering::SeqCst)))
}

// Whether the tables of an edition are those that are made of its catalogue from nothing.
fn is_as_from_nothing(alloc: Global, edition: &Edition) -> Option<bool> {
    let whole = keep(alloc, tables(alloc, edition.catalogue()).ok()?)?;
    Some(are_same(edition.tables(), whole.as_slice()))
}

// Whether a row is as it says: edits after those of `DEMO` and of `ONE`, how many tables are made, how many there are.
fn is_kept<R: Threads>(rt: &R, alloc: Global, row: &str) -> Option<bool> {
    let (edits, wanted) = row.split_once('|')?;
    let empty = empty_edition(alloc)?;
    let (first, _) = next_of(rt, alloc, empty, DEMO, "")?;
    let (second, made) = next_of(rt, alloc, first, NONE, ONE)?;
    let (third, made_after) = next_of(rt, alloc, second, NONE, edits)?;
    let counts = format!(in alloc; "{made_after} {}", third.tables().len()).ok()?;
    let is_first = made == 1 && second.tables().len() == 5;
    let is_counted = counts.as_str() == wanted;
    Some(is_first && is_counted && is_as_from_nothing(alloc, third)?)
}

// Of no edit, of edits that no graph reads, of those of a cohort, of those of an app's releases or differentials, and of
// a new app.
const ROWS: &str = r#"|0 5
{ do = "set_share", app = "one", cohort = "main", share = 7 }|0 5
{ do = "set_share", app = "demo", cohort = "beta", share = 7 }, { do = "set_share", app = "DEMO", cohort = "stable", share = 7 }, { do = "set_share", app = "one", cohort = "main", share = 0 }|0 5
{ do = "set_open", app = "demo", cohort = "beta", on = true }|0 5
{ do = "add_cohort", app = "demo", cohort = "gamma" }|0 5
{ do = "add_cohort", app = "demo", cohort = "gamma" }, { do = "set_target", app = "demo", cohort = "gamma", target = "3.0" }|1 6
{ do = "set_target", app = "one", cohort = "main", target = "1.0" }|0 5
{ do = "set_target", app = "demo", cohort = "beta", target = "2.0" }|2 5
{ do = "set_target", app = "demo", cohort = "stable", target = "4.0", held = "2.0" }|2 5
{ do = "set_target", app = "demo", cohort = "stable" }|0 3
{ do = "set_rollback", app = "one", cohort = "main", on = true }|2 6
{ do = "set_rollback", app = "demo", cohort = "beta", on = false }|1 4
{ do = "set_withdrawn", app = "demo", version = "3.0", on = true }|4 5
{ do = "set_withdrawn", app = "DEMO", version = "3.0", on = true }|4 5
{ do = "set_stone", app = "demo", version = "3.0", on = true }|4 5
{ do = "set_audience", app = "demo", version = "3.0", cohorts = ["stable"] }|4 5
{ do = "set_floor", app = "demo", version = "4.0", floor = "2.0" }|4 5
{ do = "add_release", app = "one", version = "2.0", name = "one-2.0.bin", size = 5, sha256 = "9999999999999999999999999999999999999999999999999999999999999999" }|1 5
{ do = "add_diff", app = "demo", from = "1.0", to = "4.0", name = "demo-1.0-4.0.bin", size = 100, sha256 = "1414141414141414141414141414141414141414141414141414141414141414" }, { do = "set_share", app = "one", cohort = "main", share = 7 }|4 5
{ do = "add_app", app = "two", default = "main" }|0 5
{ do = "add_app", app = "two", default = "main" }, { do = "add_release", app = "two", version = "1.0", name = "two-1.0.bin", size = 5, sha256 = "8888888888888888888888888888888888888888888888888888888888888888" }, { do = "set_target", app = "two", cohort = "main", target = "1.0", held = "1.0" }|2 7"#;

// The first row that isn't as it says; `none` if there is none.
fn wrong_row<R: Threads>(rt: &R, alloc: Global) -> &'static str {
    for row in ROWS.lines() {
        if is_kept(rt, alloc, row) != Some(true) {
            return row;
        }
    }
    "none"
}

// rule: Edit of releases or differentials
// rule: Kept tables
// rule: Source of a graph
// rule: Tables of an edition
// rule: Tables of marked cohorts
// rule: Tracks that a batch may change
#[test]
fn makes_only_the_tables_whose_graphs_may_change(rt: HostRuntime) {
    let wrong = wrong_row(&rt, rt.alloc());
    assert!(rt; wrong == "none", "{wrong}");
}
