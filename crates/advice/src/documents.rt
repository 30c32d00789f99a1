//! Faults of the files of profiles and scripts.

ghost use Rattle.std.specs.Prelude.{◌≡◌, ◌≤◌, ◌++◌, IfOk, IfSome, None, Ok, Some, codes, length, map, option_map, slice_get, string_bytes};
ghost use Rattle.std.specs.Option.{is_some};
ghost use Rattle.std.specs.Str.{is_utf8};
ghost use Rattle.std.specs.Str.Lines.{lines};
ghost use Rattle.streams.specs.Reading.{IsWhole};
ghost use Rattle.advice.specs.Documents.{IsEditSaid, IsFaultSaid, IsFileSaid, IsSaid, IsStringSaid, base_string, edit_said, edits_in, line_at, max_file, numbered_string, scripted_said, scripted_string, stale_said, notice_of};
ghost use Rattle.advice.specs.Edits.{app_of, said_of, verb_of};
ghost use Rattle.advice.specs.Entries.{entry_advice};
ghost use Rattle.advice.specs.Faults.{mirror_advice};
ghost use Rattle.advice.specs.Places.{found_seen};
ghost use Rattle.advice.specs.declared.tables.Kind.TheVariants as kind;

use crate::edits::{Subject, app_of, remedy_of, subject_of, verb_of};
use crate::entries::{Place, entry_advice, line_of};
use crate::faults::{count_advice, mirror_advice, toml_advice, utf8_advice};
use crate::places::{FoundKey, lines_of};
use crate::spots::{TableSpot, first_in, found_from};
use crate::tables::Kind;
use catalogue::{Batch, Edit, Refused};
use profile_toml::{ProfileFault, read_profile, read_script};
use std::alloc::{AllocError, Global};
use std::str;
use streams::{Disk, Shown};

/// How many bytes of a file are read.
pub(crate) const MAX_FILE: u32 = 268435456;

/// What is wrong with a document.
#[derive(Clone, Copy)]
pub(crate) enum Trouble<'a> {
    /// It has this fault.
    Fault(&'a ProfileFault),
    /// This edit was rejected.
    Edit(Refused),
    /// It is a script for another edition than this.
    Stale(u64),
}

/// The same, as it is owned.
#[derive(Drop)]
pub(crate) enum Notice {
    /// It has this fault.
    Fault(ProfileFault),
    /// This edit was rejected.
    Edit(Refused),
    /// It is a script for another edition than this.
    Stale(u64),
}

impl Notice {
    /// Borrows it.
    pub(crate) fn trouble(&self) -> Trouble<'_>
        ensures { notice_of result ≡ self.now }
    {
        match self {
            Notice::Fault(fault) => Trouble::Fault(fault),
            Notice::Edit(refused) => Trouble::Edit(*refused),
            Notice::Stale(number) => Trouble::Stale(*number),
        }
    }
}

fn entry_said(
    alloc: Global,
    file: &str,
    text: &str,
    of: Kind,
    path: &str,
) -> Result<String, AllocError>
    ensures { IfOk result (λ said. string_bytes said ≡ entry_advice (codes "F3") file.now (lines text.now) of path.now) }
{
    let lines = lines_of(alloc, text)?;
    entry_advice(alloc, "F3", file, &lines, of, path)
}

fn schema_said(alloc: Global, file: &str, text: &str, of: Kind) -> Result<String, AllocError>
    ensures { IfOk result (λ said. string_bytes said ≡ entry_advice (codes "F2") file.now (lines text.now) of (codes "schema")) }
{
    let lines = lines_of(alloc, text)?;
    entry_advice(alloc, "F2", file, &lines, of, "schema")
}

fn mirror_said(alloc: Global, file: &str, text: &str, index: usize) -> Result<String, AllocError>
    ensures { IfOk result (λ said. string_bytes said ≡ mirror_advice file.now (lines text.now) index) }
{
    let lines = lines_of(alloc, text)?;
    mirror_advice(alloc, file, &lines, index)
}

// rule: Advice on a fault
fn fault_said(
    alloc: Global,
    file: &str,
    of: Kind,
    text: &str,
    fault: &ProfileFault,
) -> Option<String>
    ensures { IfSome result (λ said. IsFaultSaid file.now of text.now fault.now (string_bytes said)) }
{
    match fault {
        ProfileFault::NotToml => toml_advice(alloc, file, text),
        ProfileFault::BadSchema => schema_said(alloc, file, text, of).ok(),
        ProfileFault::BadEntry(path) => entry_said(alloc, file, text, of, path.as_str()).ok(),
        ProfileFault::BadMirror(index) => mirror_said(alloc, file, text, *index).ok(),
        ProfileFault::TooManyEdits => count_advice(alloc, file).ok(),
    }
}

fn write_scripted(
    alloc: Global,
    place: &Place<'_>,
    index: usize,
    subject: &Subject<'_>,
    remedy: &str,
) -> Result<String, AllocError>
    ensures { IfOk result (λ said. string_bytes said
        ≡ scripted_string place.now.file.now place.now.line index (said_of subject.now).text remedy.now) }
{
    format!(in alloc; "{place}edit[{index}].{subject}: {remedy}")
}

// The line of a key of a table, else that of its header.
fn line_at(lines: &[&str], key: &str, first: Option<usize>) -> Option<usize>
    requires { IfSome first (λ at. at ≤ length lines.now) }
    ensures { result ≡ line_at (map (λ line. line.now) lines.now) key.now first }
{
    let spot = TableSpot {
        kind: Kind::Edit,
        first,
        key,
    };
    line_of(&spot, found_from(lines, key, first))
}

fn scripted_said(
    alloc: Global,
    file: &str,
    lines: &[&str],
    index: usize,
    subject: &Subject<'_>,
    remedy: &str,
) -> Result<String, AllocError>
    ensures { IfOk result (λ said. string_bytes said
        ≡ scripted_said file.now (map (λ line. line.now) lines.now) index (said_of subject.now) remedy.now) }
{
    let line = line_at(lines, subject.key(), first_in(lines, Kind::Edit, index, 0));
    write_scripted(alloc, &Place { file, line }, index, subject, remedy)
}

fn numbered_said(
    alloc: Global,
    file: &str,
    index: usize,
    edit: &Edit,
    subject: &Subject<'_>,
    remedy: &str,
) -> Result<String, AllocError>
    ensures { IfOk result (λ said. string_bytes said
        ≡ numbered_string file.now index (verb_of edit.now) (app_of edit.now) (said_of subject.now).text remedy.now) }
{
    let place = Place { file, line: None };
    let verb = verb_of(edit);
    let app = Shown {
        string: app_of(edit),
    };
    format!(in alloc; "{place}edit {index}, {verb} of app {app}: {subject}: {remedy}")
}

// rule: Advice on a rejected edit
fn edit_said(
    alloc: Global,
    file: &str,
    of: Kind,
    lines: &[&str],
    refused: Refused,
    edit: &Edit,
) -> Result<String, AllocError>
    ensures { IfOk result (λ said. string_bytes said
        ≡ edit_said file.now of (map (λ line. line.now) lines.now) refused edit.now) }
{
    let subject = subject_of(edit, refused.fault);
    let remedy = remedy_of(refused.fault);
    match of {
        Kind::Script => scripted_said(alloc, file, lines, refused.index, &subject, remedy),
        _ => numbered_said(alloc, file, refused.index, edit, &subject, remedy),
    }
}

// The edits of a document.
fn edits_in(alloc: Global, of: Kind, text: &str) -> Option<Batch>
    ensures { IfSome result (λ edits. edits_in of text.now ≡ Ok edits) }
{
    match of {
        Kind::Script => match read_script(alloc, text.as_bytes()) {
            Ok((_, edits)) => Some(edits),
            Err(_) => None,
        },
        _ => match read_profile(alloc, text.as_bytes()) {
            Ok((edits, _)) => Some(edits),
            Err(_) => None,
        },
    }
}

// The edit of an index.
fn edit_at(edits: &[Edit], index: usize) -> Option<&Edit>
    ensures { option_map (λ edit. edit.now) result ≡ slice_get edits.now index }
{
    if index < edits.len() {
        Some(&edits[index])
    } else {
        None
    }
}

// What is said of a rejected edit of a string.
fn rejected_said(
    alloc: Global,
    file: &str,
    of: Kind,
    text: &str,
    refused: Refused,
) -> Option<String>
    ensures { IfSome result (λ said. IsEditSaid file.now of text.now refused (string_bytes said)) }
{
    let edits = edits_in(alloc, of, text)?;
    let edit = edit_at(edits.edits(), refused.index)?;
    let lines = lines_of(alloc, text).ok()?;
    edit_said(alloc, file, of, &lines, refused, edit).ok()
}

fn base_said(
    alloc: Global,
    file: &str,
    number: u64,
    found: Option<FoundKey<'_>>,
) -> Result<String, AllocError>
    ensures { IfOk result (λ said. string_bytes said ≡ base_string file.now number (option_map found_seen found.entry)) }
{
    match found {
        None => {
            let place = Place { file, line: None };
            format!(in alloc;
                "{place}edition {number} is published: look at omaha dump, then set base to it (omaha explain stale)"
            )
        }
        Some(found) => {
            let place = Place {
                file,
                line: Some(found.line),
            };
            let value = Shown {
                string: found.value,
            };
            format!(in alloc;
                "{place}base is {value}, and edition {number} is published: look at omaha dump, then set base to it (omaha explain stale)"
            )
        }
    }
}

// rule: Advice on a stale script
fn stale_said(alloc: Global, file: &str, text: &str, number: u64) -> Result<String, AllocError>
    ensures { IfOk result (λ said. string_bytes said ≡ stale_said file.now (lines text.now) number) }
{
    let lines = lines_of(alloc, text)?;
    base_said(alloc, file, number, found_from(&lines, "base", Some(0)))
}

fn string_said(
    alloc: Global,
    file: &str,
    of: Kind,
    text: &str,
    trouble: Trouble<'_>,
) -> Option<String>
    ensures { IfSome result (λ said. IsStringSaid file.now of text.now (notice_of trouble.entry) (string_bytes said)) }
{
    match trouble {
        Trouble::Fault(fault) => fault_said(alloc, file, of, text, fault),
        Trouble::Edit(refused) => rejected_said(alloc, file, of, text, refused),
        Trouble::Stale(number) => stale_said(alloc, file, text, number).ok(),
    }
}

/// The bytes as a string, if they are UTF-8.
pub(crate) fn as_string(bytes: &[u8]) -> Option<&str>
    ensures same { IfSome result (λ string. string.now ≡ bytes.now) }
    ensures utf8 { is_some result ≡ is_utf8 bytes.now }
{
    match str::from_utf8(bytes) {
        Ok(string) => Some(string),
        Err(_) => None,
    }
}

fn bytes_said(
    alloc: Global,
    file: &str,
    of: Kind,
    bytes: &[u8],
    trouble: Trouble<'_>,
) -> Option<String>
    ensures { IfSome result (λ said. IsSaid file.now of bytes.now (notice_of trouble.entry) (string_bytes said)) }
{
    match as_string(bytes) {
        Some(text) => string_said(alloc, file, of, text, trouble),
        None => utf8_advice(alloc, file).ok(),
    }
}

/// Says where and what is wrong in the file at a path; nothing without memory, if the file can't be read, or if nothing
/// is to be said of it.
pub(crate) fn file_said<R: Disk>(
    rt: &R,
    alloc: Global,
    path: &str,
    of: Kind,
    trouble: Trouble<'_>,
) -> Option<String>
    ensures { IfSome result (λ said. IsFileSaid (R.file_at rt.now) path.now of (notice_of trouble.entry) (string_bytes said)) }
{
    match rt.read_file(alloc, path, MAX_FILE) {
        Ok(bytes) => bytes_said(alloc, path, of, &bytes, trouble),
        Err(_) => None,
    }
}
