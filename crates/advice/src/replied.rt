//! Replies of servers with another status than 200.

ghost use Rattle.std.specs.Prelude.{◌≡◌, ◌++◌, IfOk, IfSome, MatchOption, Some, None, bytes_eq, option_map, string_bytes};
ghost use Rattle.std.specs.Map.{lookup};
ghost use Rattle.std.specs.List.{before_first};
ghost use Rattle.advice.specs.Documents.{notice_of};
ghost use Rattle.advice.specs.Looks.{look_string};
ghost use Rattle.advice.specs.Replies.{IsLineSaid, IsPathSaid, IsReplySaid, after_word, edit_notice, explained, first_word, is_feed, line_in, line_said, raise_remedies, raise_said, raise_value, script_fault, see_string, stale_notice, notice_by, notice_in, word_of};
ghost use Rattle.advice.specs.Edits.{fault_named};
ghost use Rattle.advice.specs.declared.documents.Notice.TheVariants as notice;
ghost use Rattle.omaha_arguments.specs.Options.{number_of};
ghost use Rattle.profile_toml.specs.declared.fault.ProfileFault.TheVariants as fault;

use crate::documents::{Notice, Trouble, as_string, file_said};
use crate::edits::fault_named;
use crate::sources::script_path;
use crate::tables::Kind;
use catalogue::{Fault, Refused};
use failures::explain;
use omaha_arguments::{Command, Raise, number_of};
use profile_toml::ProfileFault;
use std::alloc::{AllocError, Global};
use streams::{Disk, Shown};
use values::Text;

// The first word of a line, and what follows it.
fn split_word(line: &str) -> (&str, &str)
    ensures first { result.0.now ≡ first_word line.now }
    ensures after { result.1.now ≡ after_word line.now }
{
    match line.split_once(' ') {
        Some(parts) => parts,
        None => (line, ""),
    }
}

fn before_feed(text: &str) -> &str
    ensures { result.now ≡ before_first is_feed text.now }
{
    match text.split_once('\n') {
        Some((line, _others)) => line,
        None => text,
    }
}

// The first line of a body.
fn line_in(body: &[u8]) -> &str
    ensures { result.now ≡ line_in body.now }
{
    match as_string(body) {
        Some(text) => before_feed(text),
        None => "",
    }
}

fn edit_notice(index: Option<u64>, fault: Option<Fault>) -> Option<Notice>
    ensures { result ≡ edit_notice index fault }
{
    match index {
        Some(index) => match fault {
            Some(fault) => Some(Notice::Edit(Refused {
                index: index as usize,
                fault,
            })),
            None => None,
        },
        None => None,
    }
}

fn stale_notice(number: Option<u64>) -> Option<Notice>
    ensures { result ≡ stale_notice number }
{
    match number {
        Some(number) => Some(Notice::Stale(number)),
        None => None,
    }
}

fn entry_notice(alloc: Global, path: &str) -> Result<Option<Notice>, AllocError>
    ensures { IfOk result (λ read. read ≡ Some (notice.Fault (fault.BadEntry path.now))) }
{
    match Text::copy_of(alloc, path) {
        Ok(path) => Ok(Some(Notice::Fault(ProfileFault::BadEntry(path)))),
        Err(error) => Err(error),
    }
}

// The fault of a script by its code.
fn script_fault(alloc: Global, word: &str, rest: &str) -> Result<Option<Notice>, AllocError>
    ensures { IfOk result (λ notice. notice ≡ script_fault word.now rest.now) }
{
    match word {
        "F1" => Ok(Some(Notice::Fault(ProfileFault::NotToml))),
        "F2" => Ok(Some(Notice::Fault(ProfileFault::BadSchema))),
        "F3" => entry_notice(alloc, split_word(rest).1),
        "F5" => Ok(Some(Notice::Fault(ProfileFault::TooManyEdits))),
        _ => Ok(None),
    }
}

fn refused_notice(rest: &str) -> Option<Notice>
    ensures { result ≡ edit_notice (number_of (first_word rest.now)) (fault_named (first_word (after_word rest.now))) }
{
    let (index, fault) = split_word(rest);
    edit_notice(number_of(index), fault_named(split_word(fault).0))
}

// rule: Line of a server
fn notice_in(alloc: Global, line: &str) -> Result<Option<Notice>, AllocError>
    ensures { IfOk result (λ notice. notice ≡ notice_in line.now) }
{
    let (word, rest) = split_word(line);
    match word {
        "stale" => Ok(stale_notice(number_of(rest))),
        "refused" => Ok(refused_notice(rest)),
        _ => script_fault(alloc, word, rest),
    }
}

// The word that explains a line.
fn word_of(line: &str) -> &str
    ensures { result.now ≡ word_of line.now }
{
    let (word, rest) = split_word(line);
    if word == "refused" {
        split_word(rest).0
    } else {
        word
    }
}

fn raise_remedy(word: &str) -> Option<&'static str>
    ensures { option_map (λ remedy. remedy.now) result ≡ lookup (bytes_eq word.now) raise_remedies }
{
    match word {
        "B1" => Some("no mirror has this name: omaha dump lists them"),
        "B2" => Some("a budget is at most 1152921504606846976 bytes"),
        "B3" => Some("the mirror's budget is higher already, and is never lowered"),
        "bad" => Some("a budget is a decimal number of bytes, without leading zeros"),
        _ => None,
    }
}

fn raise_value<'a>(word: &str, raise: &'a Raise) -> &'a str
    ensures { result.now ≡ raise_value word.now raise.now }
{
    if word == "B1" {
        raise.name.as_str()
    } else {
        raise.budget.as_str()
    }
}

fn write_raise(alloc: Global, what: &str, remedy: &str, word: &str) -> Result<String, AllocError>
    ensures { IfOk result (λ said. string_bytes said ≡ look_string what.now remedy.now word.now) }
{
    let what = Shown { string: what };
    format!(in alloc; "{what}: {remedy} (omaha explain {word})")
}

// rule: Advice on a raise
fn raise_said(alloc: Global, word: &str, command: &Command) -> Result<Option<String>, AllocError>
    ensures { IfOk result (λ said. option_map string_bytes said ≡ raise_said word.now command.now) }
{
    match command {
        Command::Raise(raise) => match raise_remedy(word) {
            Some(remedy) => match write_raise(alloc, raise_value(word, raise), remedy, word) {
                Ok(said) => Ok(Some(said)),
                Err(error) => Err(error),
            },
            None => Ok(None),
        },
        _ => Ok(None),
    }
}

fn see(alloc: Global, word: &str) -> Result<String, AllocError>
    ensures { IfOk result (λ said. string_bytes said ≡ see_string word.now) }
{
    format!(in alloc; "see omaha explain {word}")
}

/// Says where the first word of a line is explained, if it is.
pub(crate) fn explained(alloc: Global, line: &str) -> Result<Option<String>, AllocError>
    ensures { IfOk result (λ said. option_map string_bytes said ≡ explained line.now) }
{
    let (word, _rest) = split_word(line);
    match explain(word) {
        Some(_) => match see(alloc, word) {
            Ok(said) => Ok(Some(said)),
            Err(error) => Err(error),
        },
        None => Ok(None),
    }
}

fn line_said(alloc: Global, command: &Command, line: &str) -> Result<Option<String>, AllocError>
    ensures { IfOk result (λ said. option_map string_bytes said ≡ line_said command.now line.now) }
{
    match raise_said(alloc, word_of(line), command) {
        Ok(Some(said)) => Ok(Some(said)),
        Ok(None) => explained(alloc, line),
        Err(error) => Err(error),
    }
}

// The same, or nothing without memory.
fn line_advice(alloc: Global, command: &Command, line: &str) -> Option<String>
    ensures { IfSome result (λ said. line_said command.now line.now ≡ Some (string_bytes said)) }
{
    match line_said(alloc, command, line) {
        Ok(said) => said,
        Err(_) => None,
    }
}

/// Says what is wrong in the file at a path, if there is a path.
pub(crate) fn path_said<R: Disk>(
    rt: &R,
    alloc: Global,
    path: Option<&str>,
    of: Kind,
    trouble: Trouble<'_>,
) -> Option<String>
    ensures { IfSome result (λ said. IsPathSaid (R.file_at rt.now) (option_map (λ path. path.now) path.entry) of (notice_of trouble.entry) (string_bytes said)) }
{
    match path {
        Some(path) => file_said(rt, alloc, path, of, trouble),
        None => None,
    }
}

// What is said of a line that says something of a script.
fn notice_said<R: Disk>(
    rt: &R,
    alloc: Global,
    command: &Command,
    line: &str,
    notice: &Notice,
) -> Option<String>
    ensures { IfSome result (λ said. IsLineSaid (R.file_at rt.now) command.now line.now (Some notice.now) (string_bytes said)) }
{
    match path_said(
        rt,
        alloc,
        script_path(command),
        Kind::Script,
        notice.trouble(),
    ) {
        Some(said) => Some(said),
        None => line_advice(alloc, command, line),
    }
}

// rule: Advice on a reply
/// Says what is wrong by the line of a server's reply to a command, with another status than 200; nothing without memory.
///
/// A line of a script's fault, of a rejected edit or of another edition is looked up in the script's file.
pub fn reply_advice<R: Disk>(
    rt: &R,
    alloc: Global,
    command: &Command,
    body: &[u8],
) -> Option<String>
    ensures { IfSome result (λ said. IsReplySaid (R.file_at rt.now) command.now body.now (string_bytes said)) }
{
    let line = line_in(body);
    match notice_in(alloc, line) {
        Ok(Some(notice)) => notice_said(rt, alloc, command, line, &notice),
        Ok(None) => line_advice(alloc, command, line),
        Err(_) => None,
    }
}
