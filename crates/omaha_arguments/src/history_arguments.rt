// The arguments of the command `history`, as `clap` reads them.

ghost use Rattle.std.specs.Prelude.{◌≡◌, [], ◌∷◌, IfOk};
ghost use Rattle.clap.specs.Words.{FailsBy, HasKind, found_of, rows_of};
ghost use Rattle.omaha_arguments.specs.HistoryArguments.{action_in, action_named, asked_by, asked_in, edition_in, faults_by, faults_of_history, history_app, last_of, path_fault, without_edition};
ghost use Rattle.omaha_arguments.specs.Options.{IsMade};
ghost use Rattle.omaha_arguments.specs.WalkArguments.{IsAskable};

use crate::command::{Command, HistoryAction, HistoryAsked};
use crate::history_paths::{history_fault, invalid_history};
use crate::options::{Entry, Making, command_of, strings_in};
use crate::rejections::{out_of_memory, rejection};
use crate::serve_arguments::limit_in;
use clap::error::ErrorKind;
use clap::{ArgMatches, Error};
use etcd_records::EtcdPathFault;
use std::alloc::{AllocError, Global};
use values::Text;

const HISTORY: &str = "Reads the history of what a server published, or makes it shorter.";

const WORDS: &str = "The history, after `export` or `compact` if that is wanted";

const EDITION: &str = "The edition whose profile is printed [default: the last one]";

const AFTER_HISTORY: &str =
    "`omaha serve --history F` keeps each script and each raise in F. A server is stopped for these, but
if F is etcd://A,B,C/PREFIX the servers that share it may go on:
  omaha history F             lists the records: number, kind, bytes, edition, first line
  omaha history export F      prints the profile of the last edition, or of --edition N
  omaha history compact F     replaces all records by the profile of the last edition, which keeps
                              its number; scripts go on from there. Not of one in etcd

If the command fails, it prints one line on standard error.
  omaha: history F: REASON    F can't be opened or read, or is no history
  omaha: write                standard output failed
  omaha: memory               out of memory

Exit status: 0 if the command did that, 1 if it failed, 2 if the arguments are invalid.

Example: the way back to edition 4, as a profile for a new history.
  omaha history export --edition 4 history.db > profile.toml";

const ENTRIES: [Entry<'static>; 2] = [
    Entry::PlainOption("edition", "N", EDITION),
    Entry::WantedList("F", WORDS),
];

pub(crate) fn history_command<'a>(alloc: Global) -> Making<'a>
    ensures { IsMade history_app result.made }
{
    command_of(alloc, "history", HISTORY, AFTER_HISTORY, &ENTRIES)
}

// What is asked for, unless an edition is named.
fn without_edition(edition: Option<u64>, action: HistoryAction) -> Option<HistoryAction>
    ensures { result ≡ without_edition edition action }
{
    match edition {
        None => Some(action),
        Some(_) => None,
    }
}

// What a word asks for; an edition is that of an export.
fn action_named(word: &str, edition: Option<u64>) -> Option<HistoryAction>
    ensures { result ≡ action_named word.now edition }
{
    match word {
        "export" => Some(HistoryAction::Export(edition)),
        "compact" => without_edition(edition, HistoryAction::Compact),
        _ => None,
    }
}

// What one or two words ask for, of which the last one is the path.
fn action_in(words: &[Text], edition: Option<u64>) -> Option<HistoryAction>
    ensures { result ≡ action_in words.now edition }
{
    if words.len() == 1 {
        return without_edition(edition, HistoryAction::List);
    }
    if words.len() == 2 {
        return action_named(words[0].as_str(), edition);
    }
    None
}

// The last of some words, or nothing.
fn last_of(alloc: Global, words: &[Text]) -> Result<Text, AllocError>
    ensures { IfOk result (λ last. last ≡ last_of words.now) }
{
    match words.last() {
        Some(last) => last.clone(),
        None => Text::copy_of(alloc, ""),
    }
}

// The edition that is asked for, if it is one.
fn edition_in(matches: &ArgMatches<'_>) -> Option<Option<u64>>
    ensures { result ≡ edition_in (rows_of (found_of matches.now)) }
{
    limit_in(matches, "edition")
}

// The error for words that ask for nothing.
fn invalid_words(alloc: Global) -> Error
    ensures { HasKind (ErrorKind.ValueValidation ∷ []) result }
{
    rejection(
        alloc,
        history_command(alloc),
        "omaha history",
        ErrorKind::ValueValidation,
        "name a history, after `export` or `compact` if that is wanted; `--edition N` goes with `export` alone",
    )
}

// What is wrong with the path among some words.
fn path_fault(words: &[Text]) -> Option<EtcdPathFault>
    ensures { result ≡ path_fault words.now }
{
    match words.last() {
        Some(last) => history_fault(last.as_str()),
        None => history_fault(""),
    }
}

// Reads what some words ask for.
fn read_words(alloc: Global, words: &[Text], edition: Option<u64>) -> Result<Command, Error>
    ensures faults { FailsBy (faults_by words.now edition) result }
    ensures command { IfOk result (λ command. command ≡ Command.History (asked_by words.now edition)) }
    ensures named { IfOk result IsAskable }
{
    let Some(action) = action_in(words, edition) else {
        return Err(invalid_words(alloc));
    };
    if let Some(fault) = path_fault(words) {
        return Err(invalid_history(alloc, history_command(alloc), "omaha history", fault));
    }
    match last_of(alloc, words) {
        Ok(path) => Ok(Command::History(HistoryAsked { path, action })),
        Err(error) => Err(out_of_memory(error)),
    }
}

/// Reads the arguments of `history`.
pub(crate) fn read_history(alloc: Global, matches: &ArgMatches<'_>) -> Result<Command, Error>
    ensures faults { FailsBy (faults_of_history (rows_of (found_of matches.now))) result }
    ensures command { IfOk result (λ command. command ≡ Command.History (asked_in (rows_of (found_of matches.now)))) }
    ensures named { IfOk result IsAskable }
{
    let Some(edition) = edition_in(matches) else {
        return Err(invalid_words(alloc));
    };
    match strings_in(alloc, matches, "F") {
        Ok(words) => read_words(alloc, words.as_slice(), edition),
        Err(error) => Err(out_of_memory(error)),
    }
}
