// The options and arguments of a command, as `clap` reads them.

ghost use Rattle.std.specs.Prelude.{◌≡◌, false, IfOk, map};
ghost use Rattle.clap.specs.Words.{App, first_of, found_of, new_app, rows_of, rule_of, with_rule};
ghost use Rattle.omaha_arguments.specs.Options.{IsMade, argument_named, flag_in, flag_named, has_plus, number_in, number_of, rule_in, string_in, strings_in, number_up_to, number_within, seconds_in, valued_option, wanted_list, with_entries, with_verbose, workers_in};

use clap::{Arg, ArgAction, ArgMatches};
use std::alloc::{AllocError, Global};
use values::{Items, Text};

const VERBOSE: &str = "Say more on standard error [default: if that is a terminal]";

/// A command that is being made, or that memory ran out: each function below passes a failure on.
pub(crate) struct Making<'a> {
    /// The command, unless memory ran out.
    pub(crate) made: Result<clap::Command<'a>, AllocError>,
}

// Written out, so that no caller proves again how each of the many parts of a command is dropped.
impl Drop for Making<'_> {
    fn drop(self) {
        let Making { made: _ } = self;
    }
}

impl<'a> Making<'a> {
    /// Gives the command, or that memory ran out.
    pub(crate) fn into_made(self) -> Result<clap::Command<'a>, AllocError>
        ensures { result ≡ self.entry.made }
    {
        let Making { made } = self;
        made
    }
}

/// A command with a name and its help.
pub(crate) fn titled<'a>(
    alloc: Global,
    name: &'a str,
    about: &'a str,
    after_help: &'a str,
) -> Making<'a>
    ensures { IsMade (new_app name.entry.now) result.made }
{
    let command = clap::Command::new(alloc, name)
        .about(about)
        .after_help(after_help);
    Making { made: Ok(command) }
}

// The command with one more argument.
fn with_arg<'a>(command: Making<'a>, argument: Arg<'a>) -> Making<'a>
    ensures { (app : App) → argument.entry.global ≡ false → IsMade app command.entry.made → IsMade (with_rule app (rule_of argument.entry)) result.made }
{
    match command.into_made() {
        Ok(command) => Making {
            made: command.arg(argument),
        },
        Err(error) => Making { made: Err(error) },
    }
}

// An argument, perhaps one that has to be given.
fn argument<'a>(alloc: Global, name: &'a str, required: bool, help: &'a str) -> Arg<'a>
    ensures rule { rule_of result ≡ argument_named name.entry.now required }
    ensures local { result.global ≡ false }
{
    Arg::new(alloc, name).required(required).help(help)
}

// An option with a value, perhaps one that has to be given.
fn option<'a>(
    alloc: Global,
    name: &'a str,
    value: &'a str,
    required: bool,
    help: &'a str,
) -> Arg<'a>
    ensures rule { rule_of result ≡ valued_option name.entry.now required }
    ensures local { result.global ≡ false }
{
    argument(alloc, name, required, help)
        .long(name)
        .value_name(value)
}

// An option without a value.
fn flag<'a>(alloc: Global, name: &'a str, help: &'a str) -> Arg<'a>
    ensures rule { rule_of result ≡ flag_named name.entry.now }
    ensures local { result.global ≡ false }
{
    argument(alloc, name, false, help)
        .long(name)
        .action(ArgAction::Count)
}

// An argument that has to be given and may be given several times.
fn wanted_list<'a>(alloc: Global, name: &'a str, help: &'a str) -> Arg<'a>
    ensures rule { rule_of result ≡ wanted_list name.entry.now }
    ensures local { result.global ≡ false }
{
    argument(alloc, name, true, help).action(ArgAction::Append)
}

/// An argument of a command: its name, that of its value, and its help.
#[derive(Clone, Copy)]
pub(crate) enum Entry<'a> {
    /// An argument that has to be given.
    Wanted(&'a str, &'a str),
    /// An argument that may be left out.
    Optional(&'a str, &'a str),
    /// An argument that has to be given and may be given several times.
    WantedList(&'a str, &'a str),
    /// An option that has a value and has to be given.
    WantedOption(&'a str, &'a str, &'a str),
    /// An option that has a value.
    PlainOption(&'a str, &'a str, &'a str),
    /// An option without a value.
    Flag(&'a str, &'a str),
}

// The argument as `clap` has it.
fn argument_of<'a>(alloc: Global, entry: Entry<'a>) -> Arg<'a>
    ensures rule { rule_of result ≡ rule_in entry.entry }
    ensures local { result.global ≡ false }
{
    match entry {
        Entry::Wanted(name, help) => argument(alloc, name, true, help),
        Entry::Optional(name, help) => argument(alloc, name, false, help),
        Entry::WantedList(name, help) => wanted_list(alloc, name, help),
        Entry::WantedOption(name, value, help) => option(alloc, name, value, true, help),
        Entry::PlainOption(name, value, help) => option(alloc, name, value, false, help),
        Entry::Flag(name, help) => flag(alloc, name, help),
    }
}

/// The command with `--verbose`, which each command has.
pub(crate) fn with_verbose<'a>(alloc: Global, command: Making<'a>) -> Making<'a>
    ensures { (app : App) → IsMade app command.entry.made → IsMade (with_verbose app) result.made }
{
    with_arg(command, flag(alloc, "verbose", VERBOSE))
}

/// The command with some more arguments.
pub(crate) fn with_entries<'a>(
    alloc: Global,
    command: Making<'a>,
    entries: &[Entry<'a>],
) -> Making<'a>
    ensures { (app : App) → IsMade app command.entry.made → IsMade (with_entries app entries.now) result.made }
{
    let mut made = command;
    for entry in entries {
        made = with_arg(made, argument_of(alloc, *entry));
    }
    made
}

/// A command with a name, its help and its arguments.
pub(crate) fn command_of<'a>(
    alloc: Global,
    name: &'a str,
    about: &'a str,
    after_help: &'a str,
    entries: &[Entry<'a>],
) -> Making<'a>
    ensures { IsMade (with_entries (new_app name.entry.now) entries.now) result.made }
{
    with_entries(alloc, titled(alloc, name, about, after_help), entries)
}

// Whether a string begins with a `+`.
fn has_plus(text: &str) -> bool
    ensures { result ≡ has_plus text.now }
{
    !text.is_empty() && text.as_bytes()[0] == b'+'
}

/// The number that a string has in decimal digits; std's `parse` alone would accept a `+`.
pub fn number_of(text: &str) -> Option<u64>
    ensures { result ≡ number_of text.now }
{
    if has_plus(text) {
        return None;
    }
    text.parse::<u64>().ok()
}

/// The number of an option, or a default without the option.
pub(crate) fn number_in(matches: &ArgMatches<'_>, id: &str, default: u64) -> Option<u64>
    ensures { result ≡ number_in id.now default (rows_of (found_of matches.now)) }
{
    match matches.get_str(id) {
        None => Some(default),
        Some(text) => number_of(text),
    }
}

// A number, if it is from 1 to that one.
fn number_up_to(most: u64, number: u64) -> Option<u64>
    ensures { result ≡ number_up_to most number }
{
    if 0 < number && number <= most {
        Some(number)
    } else {
        None
    }
}

/// The number of an option, or a default without the option, if it is from 1 to that one.
pub(crate) fn number_within(
    matches: &ArgMatches<'_>,
    id: &str,
    default: u64,
    most: u64,
) -> Option<u64>
    ensures { result ≡ number_within id.now default most (rows_of (found_of matches.now)) }
{
    match number_in(matches, id, default) {
        None => None,
        Some(number) => number_up_to(most, number),
    }
}

// rule: Number of workers
/// How many workers `--workers` says, 1 without the option.
pub(crate) fn workers_in(matches: &ArgMatches<'_>) -> Option<u64>
    ensures { result ≡ workers_in (rows_of (found_of matches.now)) }
{
    number_within(matches, "workers", 1, 8)
}

/// The seconds of a time limit, or so many without the option.
pub(crate) fn seconds_in(matches: &ArgMatches<'_>, id: &str, default: u64) -> Option<u64>
    ensures { result ≡ seconds_in id.now default (rows_of (found_of matches.now)) }
{
    number_within(matches, id, default, 86400)
}

/// The value of an argument, or nothing.
pub(crate) fn string_in<'a>(matches: &ArgMatches<'a>, id: &str) -> &'a str
    ensures { result.now ≡ string_in id.now (rows_of (found_of matches.now)) }
{
    match matches.get_str(id) {
        Some(text) => text,
        None => "",
    }
}

/// The value of an option or an argument, if it is given.
pub(crate) fn optional_string(
    alloc: Global,
    matches: &ArgMatches<'_>,
    id: &str,
) -> Result<Option<Text>, AllocError>
    ensures { IfOk result (λ text. text ≡ first_of id.now (rows_of (found_of matches.now))) }
{
    match matches.get_str(id) {
        None => Ok(None),
        Some(text) => Ok(Some(Text::copy_of(alloc, text)?)),
    }
}

/// Copies the value of an argument, or nothing.
pub(crate) fn copy_string(
    alloc: Global,
    matches: &ArgMatches<'_>,
    id: &str,
) -> Result<Text, AllocError>
    ensures { IfOk result (λ text. text ≡ string_in id.now (rows_of (found_of matches.now))) }
{
    Text::copy_of(alloc, string_in(matches, id))
}

/// Copies the values of two arguments, or nothing for each that isn't given.
pub(crate) fn copy_strings(
    alloc: Global,
    matches: &ArgMatches<'_>,
    first: &str,
    second: &str,
) -> Result<(Text, Text), AllocError>
    ensures { IfOk result (λ both. (both.0 ≡ string_in first.now (rows_of (found_of matches.now)))
        × (both.1 ≡ string_in second.now (rows_of (found_of matches.now)))) }
{
    let first = copy_string(alloc, matches, first)?;
    let second = copy_string(alloc, matches, second)?;
    Ok((first, second))
}

/// Whether a flag is given.
pub(crate) fn flag_in(matches: &ArgMatches<'_>, id: &str) -> bool
    ensures { result ≡ flag_in id.now (rows_of (found_of matches.now)) }
{
    0 < matches.get_count(id)
}

// Copies strings.
fn copy_all(alloc: Global, texts: &[&str]) -> Result<Items<Text>, AllocError>
    ensures { IfOk result (λ copies. copies ≡ map (λ text. text.now) texts.now) }
{
    let mut copies = Items::empty(alloc);
    for text in texts {
        copies.push(Text::copy_of(alloc, text)?)?;
    }
    Ok(copies)
}

/// The values of an argument that may be given several times.
pub(crate) fn strings_in(
    alloc: Global,
    matches: &ArgMatches<'_>,
    id: &str,
) -> Result<Items<Text>, AllocError>
    ensures { IfOk result (λ texts. texts ≡ strings_in id.now (rows_of (found_of matches.now))) }
{
    match matches.get_strs(id) {
        None => Ok(Items::empty(alloc)),
        Some(texts) => copy_all(alloc, texts),
    }
}
