//! The tables of a content of which some are kept from another content.

ghost use Rattle.std.specs.Prelude.{◌≡◌, ◌+◌, ◌∷◌, ◌<◌, [], false, if◌then◌else◌, true, IfOk, OnOk, length};
ghost use Rattle.par_tables.specs.Marks.{is_marked, AreTablesFor, IsNext, IsTableOf, IsTrack, KeepsOthers};
ghost use Rattle.par_tables.specs.Sources.{source_at};
ghost use Rattle.par_tables.specs.Tables.{Adds, AreTables};

use crate::listing::TrackTables;
use crate::tracks::{is_marked, tracks};
use catalogue::Catalogue;
use payload_graph::TrackKey;
use price_cert::Certified;
use std::alloc::{AllocError, Global};
use values::Items;

// The table before of a track whose graph has the same source in both contents.
fn find_kept<'a>(
    before: &Catalogue,
    tables: &'a TrackTables,
    made: &Catalogue,
    key: &TrackKey,
) -> &'a Certified
    requires tables { AreTables before.now tables.now }
    requires same { source_at made.now key.now.app key.now.cohort ≡ source_at before.now key.now.app key.now.cohort }
    requires track { IsTrack made.now key.now }
    ensures { IsTableOf made.now key.now result.now }
{
    let _ = before;
    let _ = made;
    crate::laws::tracks();
    tables.find(key).unwrap()
}

// The table of a track: the next built one if its cohort is marked, else the one before.
fn source_of<'a>(
    before: &Catalogue,
    tables: &'a TrackTables,
    made: &Catalogue,
    marks: &[Items<bool>],
    built: &'a [Certified],
    next: usize,
    key: &TrackKey,
) -> &'a Certified
    requires tables { AreTables before.now tables.now }
    requires kept { KeepsOthers before.now made.now marks.now }
    requires next { IsNext made.now marks.now built.now next key.now }
    requires track { IsTrack made.now key.now }
    ensures { IsTableOf made.now key.now result.now }
{
    if is_marked(marks, key) {
        &built[next]
    } else {
        find_kept(before, tables, made, key)
    }
}

/// Adds a copy of the table of a track.
pub(crate) fn push_copy(
    tables: &mut Vec<Certified>,
    catalogue: &Catalogue,
    key: &TrackKey,
    table: &Certified,
) -> Result<(), AllocError>
    requires { IsTableOf catalogue.now key.now table.now }
    ensures { OnOk result (Adds catalogue.now (key.now ∷ []) tables.old.items tables.new.items) }
{
    let _ = catalogue;
    let _ = key;
    let copied = table.copy()?;
    tables.push(copied)?;
    Ok(())
}

// The index of the built table after that of a track.
fn index_after(marks: &[Items<bool>], built: &[Certified], next: usize, key: &TrackKey) -> usize
    requires { is_marked marks.now key.now ≡ true → next < length built.now }
    ensures { result ≡ next + (if is_marked marks.now key.now then 1 else 0) }
{
    let _few = built.len();
    if is_marked(marks, key) {
        next + 1
    } else {
        next
    }
}

// rule: Kept tables
/// Makes the list of a content's tables: of the marked cohorts copies of those that were built, and of the others
/// copies of those of the content before. A copy shares its rows.
///
/// The graphs of a cohort without a mark have the same source in both contents: the same releases and differentials of
/// the app, and the cohort itself but for its share and its open flag. `built` is what `build_for` makes by the marks.
pub fn merged(
    alloc: Global,
    before: &Catalogue,
    tables: &TrackTables,
    made: &Catalogue,
    marks: &[Items<bool>],
    built: &[Certified],
) -> Result<Vec<Certified>, AllocError>
    requires tables { AreTables before.now tables.now }
    requires kept { KeepsOthers before.now made.now marks.now }
    requires built { AreTablesFor made.now marks.now built.now }
    ensures { IfOk result (λ merged. AreTables made.now merged.items) }
{
    let keys = tracks(alloc, made)?;
    let listed = keys.as_slice();
    let mut merged = Vec::new(alloc);
    let mut next = 0;
    for key in listed {
        let table = source_of(before, tables, made, marks, built, next, key);
        push_copy(&mut merged, made, key, table)?;
        next = index_after(marks, built, next, key);
    }
    Ok(merged)
}
