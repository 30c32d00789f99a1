// The options of the command `once`.

ghost use Rattle.std.specs.Prelude.{◌≡◌, [], ◌∷◌, IfOk};
ghost use Rattle.clap.specs.Words.{FailsBy, HasKind, found_of, rows_of};
ghost use Rattle.omaha_arguments.specs.Commands.{faults_of_once, once_app, once_at, once_in, timestamp_in};
ghost use Rattle.omaha_arguments.specs.Options.{IsMade};
ghost use Rattle.omaha_arguments.specs.WalkArguments.{IsAskable};

use crate::command::{Command, Once};
use crate::options::{Entry, Making, command_of, number_in, optional_string};
use crate::rejections::{out_of_memory, rejection};
use clap::error::ErrorKind;
use clap::{ArgMatches, Error};
use std::alloc::{AllocError, Global};

const ONCE: &str =
    "Reads one request from standard input, and writes the reply to standard output.";

const PROFILE: &str = "The catalogue: a TOML file of at most 256 MiB [default: a built-in one]";

const TIMESTAMP: &str = "The time of the reply, in seconds since 1970 UTC [default: 0]";

const AFTER_ONCE: &str =
    "N is a decimal number from 0 to 18446744073709551615. The built-in catalogue has one app, `mini`.

If the command fails, it prints one line on standard error. Unless that is `omaha: write`, it has
written nothing to standard output.
  omaha: file F                        F can't be read, or has more than 256 MiB
  omaha: F3 BadEntry app[0].id         the profile is invalid, with the location
  omaha: edit 12: C11 UnknownRelease   an edit of the profile is rejected
  omaha: J1 NotJson                    the request is invalid
  omaha: read                          standard input failed, or has more than 262144 bytes
  omaha: no place                      a reader of the editions found no place
  omaha: write                         standard output failed
  omaha: memory                        out of memory
Control characters in F are printed as `%` and two hexadecimal digits.

Edits count from 0. For each app of the profile: the app; each cohort but the default one; each
release, and then what is set of it; each differential; then for each cohort its targets, share,
rollback and open flag, as far as they are given.

Exit status: 0 if the reply was written, 1 if the command failed, 2 if the arguments are invalid.

Example: a client without an installed version asks for the built-in app `mini`.
  echo '{\"request\":{\"app\":[{\"appid\":\"mini\",\"updatecheck\":{}}],\"protocol\":\"3.1\"}}' |
    omaha once --moment 1767229261";

const ENTRIES: [Entry<'static>; 2] = [
    Entry::PlainOption("profile", "F", PROFILE),
    Entry::PlainOption("moment", "N", TIMESTAMP),
];

pub(crate) fn once_command<'a>(alloc: Global) -> Making<'a>
    ensures { IsMade once_app result.made }
{
    command_of(alloc, "once", ONCE, AFTER_ONCE, &ENTRIES)
}

// What is said of a `--moment` that is no such number.
fn invalid_number(alloc: Global, text: &str) -> Result<String, AllocError> {
    format!(in alloc; "invalid value '{text}' for '--moment <N>': no decimal number below 2^64")
}

// The error for a `--moment` that is no such number.
fn invalid_timestamp(alloc: Global, text: &str) -> Error
    ensures { HasKind (ErrorKind.ValueValidation ∷ []) result }
{
    match invalid_number(alloc, text) {
        Ok(message) => rejection(
            alloc,
            once_command(alloc),
            "omaha once",
            ErrorKind::ValueValidation,
            message.as_str(),
        ),
        Err(error) => out_of_memory(error),
    }
}

// The number of `--moment`.
fn timestamp_in(matches: &ArgMatches<'_>) -> Option<u64>
    ensures { result ≡ timestamp_in (rows_of (found_of matches.now)) }
{
    number_in(matches, "moment", 0)
}

// Reads the profile's path, beside the time.
fn once_at(alloc: Global, moment: u64, matches: &ArgMatches<'_>) -> Result<Once, AllocError>
    ensures { IfOk result (λ once. once ≡ once_at moment (rows_of (found_of matches.now))) }
{
    let profile = optional_string(alloc, matches, "profile")?;
    Ok(Once { profile, moment })
}

/// Reads the options of `once`.
pub(crate) fn read_once(alloc: Global, matches: &ArgMatches<'_>) -> Result<Command, Error>
    ensures faults { FailsBy (faults_of_once (rows_of (found_of matches.now))) result }
    ensures command { IfOk result (λ command. command ≡ Command.Once (once_in (rows_of (found_of matches.now)))) }
    ensures named { IfOk result IsAskable }
{
    let Some(moment) = timestamp_in(matches) else {
        let text = matches.get_str("moment").unwrap_or("");
        return Err(invalid_timestamp(alloc, text));
    };
    match once_at(alloc, moment, matches) {
        Ok(once) => Ok(Command::Once(once)),
        Err(error) => Err(out_of_memory(error)),
    }
}
