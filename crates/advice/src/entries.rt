//! Entries of profiles and scripts that are invalid.

ghost use Rattle.std.specs.Prelude.{◌≡◌, ◌≤◌, ◌++◌, IfOk, IfSome, List, Some, codes, length, map, nat_lt, option_map, string_bytes, ℕ};
ghost use Rattle.std.specs.List.{list_any};
ghost use Rattle.std.specs.Str.{bytes_eq};
ghost use Rattle.advice.specs.Entries.{distance, entry_advice, entry_at, entry_line, entry_said, entry_with, header_line, hint_of, known_string, near_key, near_within, place_string, stray_string, unknown_string, what_string};
ghost use Rattle.advice.specs.Places.{found_seen};
ghost use Rattle.advice.specs.Spots.{found_at, spot_seen, verb_at};
ghost use Rattle.advice.specs.Tables.{keys_of, words_of};

use crate::places::FoundKey;
use crate::spots::{TableSpot, found_from, spot_of, verb_at};
use crate::tables::{Kind, form_of, keys_of, kind_words, words_of};
use std::alloc::{AllocError, Global};
use std::fmt;
use streams::Shown;
use strsim::levenshtein;

/// A file, and a line of it if that is known.
#[derive(Clone, Copy)]
pub(crate) struct Place<'a> {
    pub file: &'a str,
    pub line: Option<usize>,
}

// rule: Place of a fault
impl fmt::Display for Place<'_> {
    ghost output = { λ place. Some (place_string place.file.now place.line) };

    fn fmt<W: fmt::Write>(&self, f: &mut fmt::Formatter<W>) -> fmt::Result {
        let file = Shown { string: self.file };
        match self.line {
            Some(line) => write!(f, "{file}:{line}: "),
            None => write!(f, "{file}: "),
        }
    }
}

/// What is wrong with an entry.
#[derive(Clone, Copy)]
pub(crate) enum What<'a> {
    /// Only another document has such a key.
    Mistaken(Kind, &'a str),
    /// There is no such key, and this one is near.
    Near(Kind, &'a str),
    /// There is no such key, and none near.
    Unknown(Kind, &'a str),
    /// The value has another form than this.
    Value(&'a str, &'a str),
    /// No line sets the key, which has this form.
    Absent(&'a str),
    /// The key has this form, and its table no header.
    Unseen(&'a str),
}

/// An entry, and what is wrong with it.
#[derive(Clone, Copy)]
struct Entry<'a> {
    path: &'a str,
    what: What<'a>,
}

impl fmt::Display for Entry<'_> {
    ghost output = { λ entry. Some (what_string entry.path.now entry.what) };

    fn fmt<W: fmt::Write>(&self, f: &mut fmt::Formatter<W>) -> fmt::Result {
        let path = Shown { string: self.path };
        match self.what {
            What::Mistaken(kind, hint) => {
                let kind = kind_words(kind);
                write!(f, "{path} is no key of {kind}: {hint}")
            }
            What::Near(kind, near) => {
                let kind = kind_words(kind);
                write!(f, "{path} is no key of {kind}: did you mean {near}?")
            }
            What::Unknown(kind, keys) => {
                let kind = kind_words(kind);
                write!(f, "{path} is no key of {kind}, which has: {keys}")
            }
            What::Value(value, form) => {
                let value = Shown { string: value };
                write!(f, "{path} is {value}: write {form}")
            }
            What::Absent(form) => write!(f, "no line sets {path}: write {form}"),
            What::Unseen(form) => write!(f, "{path}: write {form}"),
        }
    }
}

fn has_word(words: &[&str], key: &str) -> bool
    ensures { result ≡ list_any (bytes_eq key.now) (map (λ word. word.now) words.now) }
{
    for word in words {
        if key == *word {
            return true;
        }
    }
    false
}

fn is_near(alloc: Global, word: &str, key: &str, limit: usize) -> Result<bool, AllocError>
    ensures { IfOk result (λ near. near ≡ nat_lt (distance word.now key.now) limit) }
{
    match levenshtein(alloc, word, key) {
        Ok(changes) => Ok(changes < limit),
        Err(error) => Err(error),
    }
}

// The first word from which so few changes lead to a key.
fn near_within<'t>(
    alloc: Global,
    words: &[&'t str],
    key: &str,
    limit: usize,
) -> Result<Option<&'t str>, AllocError>
    ensures { IfOk result (λ near. option_map (λ word. word.now) near
        ≡ near_within limit key.now (map (λ word. word.now) words.now)) }
{
    for word in words {
        if is_near(alloc, word, key, limit)? {
            return Ok(Some(*word));
        }
    }
    Ok(None)
}

// rule: Nearest key
fn near_key<'t>(alloc: Global, words: &[&'t str], key: &str) -> Result<Option<&'t str>, AllocError>
    ensures { IfOk result (λ near. option_map (λ word. word.now) near
        ≡ near_key key.now (map (λ word. word.now) words.now)) }
{
    match near_within(alloc, words, key, 2) {
        Ok(Some(word)) => Ok(Some(word)),
        Ok(None) => near_within(alloc, words, key, 3),
        Err(error) => Err(error),
    }
}

// A key that only the other kind of document has.
fn hint_of(kind: Kind, key: &str) -> Option<&'static str>
    ensures { option_map (λ hint. hint.now) result ≡ hint_of kind key.now }
{
    match kind {
        Kind::Profile if matches!(key, "base" | "edit") => {
            Some("is this a script? try omaha check PROFILE --script FILE")
        }
        Kind::Script if matches!(key, "app" | "mirror") => {
            Some("is this a profile? a script has the keys schema, base and edit")
        }
        _ => None,
    }
}

// What is wrong with an unknown key without a hint.
fn unknown<'a>(
    alloc: Global,
    kind: Kind,
    keys: &'a str,
    words: &[&'a str],
    key: &str,
) -> Result<What<'a>, AllocError>
    requires { map (λ word. word.now) words.now ≡ words_of keys.now }
    ensures { (path : List ℕ) → IfOk result (λ what. what_string path what
        ≡ unknown_string kind keys.now path (near_key key.now (words_of keys.now))) }
{
    match near_key(alloc, words, key) {
        Ok(Some(near)) => Ok(What::Near(kind, near)),
        Ok(None) => Ok(What::Unknown(kind, keys)),
        Err(error) => Err(error),
    }
}

// What is wrong with a key that its table doesn't have.
fn stray<'a>(
    alloc: Global,
    kind: Kind,
    keys: &'a str,
    words: &[&'a str],
    key: &str,
) -> Result<What<'a>, AllocError>
    requires { map (λ word. word.now) words.now ≡ words_of keys.now }
    ensures { (path : List ℕ) → IfOk result (λ what. what_string path what
        ≡ stray_string kind keys.now key.now path (hint_of kind key.now)) }
{
    match hint_of(kind, key) {
        Some(hint) => Ok(What::Mistaken(kind, hint)),
        None => unknown(alloc, kind, keys, words, key),
    }
}

// What is wrong with a key that its table has.
fn known<'a>(first: Option<usize>, found: Option<FoundKey<'a>>, form: &'a str) -> What<'a>
    ensures { (path : List ℕ) → what_string path result ≡ known_string form.now path first (option_map found_seen found.entry) }
{
    match found {
        Some(found) => What::Value(found.value, form),
        None => match first {
            Some(_) => What::Absent(form),
            None => What::Unseen(form),
        },
    }
}

// What is wrong with the entry at a spot, by the keys of its table.
fn what_with<'a>(
    alloc: Global,
    keys: &'a str,
    spot: &TableSpot<'_>,
    found: Option<FoundKey<'a>>,
) -> Result<What<'a>, AllocError>
    ensures { (path : List ℕ) (lines : List (List ℕ)) → option_map found_seen found.entry ≡ found_at lines (spot_seen spot.now)
        → IfOk result (λ what. what_string path what ≡ entry_with keys.now lines (spot_seen spot.now) path) }
{
    let words = words_of(alloc, keys)?;
    if has_word(&words, spot.key) {
        Ok(known(spot.first, found, form_of(spot.kind, spot.key)))
    } else {
        stray(alloc, spot.kind, keys, &words, spot.key)
    }
}

// The keys of the table at a spot.
fn keys_at(lines: &[&str], spot: &TableSpot<'_>) -> &'static str
    requires { IfSome spot.now.first (λ at. at ≤ length lines.now) }
    ensures { result.now ≡ keys_of spot.now.kind (verb_at (map (λ line. line.now) lines.now) (spot_seen spot.now)) }
{
    keys_of(spot.kind, verb_at(lines, spot.first))
}

fn header_line(first: Option<usize>) -> Option<usize>
    ensures { result ≡ header_line first }
{
    match first {
        Some(first) if 0 < first => Some(first),
        _ => None,
    }
}

/// The line of a key, else that of its table's header.
pub(crate) fn line_of(spot: &TableSpot<'_>, found: Option<FoundKey<'_>>) -> Option<usize>
    ensures { (lines : List (List ℕ)) → option_map found_seen found.entry ≡ found_at lines (spot_seen spot.now)
        → result ≡ entry_line lines (spot_seen spot.now) }
{
    match found {
        Some(found) => Some(found.line),
        None => header_line(spot.first),
    }
}

fn write_entry(
    alloc: Global,
    code: &str,
    place: &Place<'_>,
    entry: &Entry<'_>,
) -> Result<String, AllocError>
    ensures { IfOk result (λ text. string_bytes text ≡ place_string place.now.file.now place.now.line
        ++ (what_string entry.now.path.now entry.now.what ++ (codes " (omaha explain " ++ (code.now ++ codes ")")))) }
{
    format!(in alloc; "{place}{entry} (omaha explain {code})")
}

#[tactic(auto, unfolding(crate::specs::Entries::entry_said))]
fn entry_said(
    alloc: Global,
    code: &str,
    file: &str,
    lines: &[&str],
    spot: &TableSpot<'_>,
    path: &str,
) -> Result<String, AllocError>
    requires { IfSome spot.now.first (λ at. at ≤ length lines.now) }
    ensures { IfOk result (λ text. string_bytes text
        ≡ entry_said code.now file.now (map (λ line. line.now) lines.now) (spot_seen spot.now) path.now) }
{
    let found = found_from(lines, spot.key, spot.first);
    let what = what_with(alloc, keys_at(lines, spot), spot, found)?;
    let place = Place {
        file,
        line: line_of(spot, found),
    };
    write_entry(alloc, code, &place, &Entry { path, what })
}

// rule: Advice on an entry
/// Says where the entry of a path is, and whether its key is unknown, has another form, or is missing; the code explains it.
pub(crate) fn entry_advice(
    alloc: Global,
    code: &str,
    file: &str,
    lines: &[&str],
    document: Kind,
    path: &str,
) -> Result<String, AllocError>
    ensures { IfOk result (λ text. string_bytes text
        ≡ entry_advice code.now file.now (map (λ line. line.now) lines.now) document path.now) }
{
    let spot = spot_of(lines, document, path);
    entry_said(alloc, code, file, lines, &spot, path)
}
