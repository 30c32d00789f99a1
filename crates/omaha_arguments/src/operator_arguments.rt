// The arguments of the operator's commands `publish`, `raise`, `dump` and `status`, as `clap` reads them.

ghost use Rattle.std.specs.Prelude.{◌≡◌, ◌∷◌, [], IfOk};
ghost use Rattle.clap.specs.Words.{FailsBy, HasKind, found_of, rows_of};
ghost use Rattle.omaha_arguments.specs.Options.{IsMade};
ghost use Rattle.omaha_arguments.specs.OperatorArguments.{asked_with, dump_app, server_in, faults_of_timeout, publication_in, publication_with, publish_app, raise_app, raise_in, raise_with, status_app, timeout_in};
ghost use Rattle.omaha_arguments.specs.WalkArguments.{IsAskable};

use crate::command::{Command, Publication, Raise, ServerAsked};
use crate::options::{
    Entry, Making, command_of, copy_string, copy_strings, flag_in, optional_string, seconds_in,
};
use crate::rejections::{out_of_memory, rejection};
use clap::error::ErrorKind;
use clap::{ArgMatches, Error};
use std::alloc::{AllocError, Global};

/// The help of `--to`.
pub(crate) const TO: &str = "The operator's address of the server: 127.0.0.1:8081, unix:PATH";

const TIMEOUT: &str = "Seconds that an exchange may take, 1 to 86400 [default: 30]";

/// What is said of a time limit that is none.
pub(crate) const INVALID_TIMEOUT: &str = "--timeout is a number of seconds from 1 to 86400";

const SCRIPT: &str = "The script: a TOML file of at most 262144 bytes, or - for standard input";

const CHECK: &str = "Check the script against the server's edition, and publish nothing";

const PACKAGES: &str = "The folder that must have the added packages [default: none]";

const PUBLISH: &str = "Publishes a script to a running server.";

const AFTER_PUBLISH: &str = "A script is a TOML file. docs/PROFILE.md describes its keys:
  schema   1 or 2
  base     the number of the edition that the script is written for
  edit     the edits, a list of tables

The server publishes the whole script as the next edition, or nothing. `omaha publish` prints the
server's reply:
  `edition 5`                      the script is published as edition 5
  `stale 5`                        edition 5 is published, and `base` is another number
  `refused 0 C11 UnknownRelease`   the catalogue rejects an edit, the first one of number 0
  `history full`                   there are 4096 editions; compact the history, or serve a dump
  `F3 BadEntry edit[0].on`         the script is invalid, with the location
  `missing mini-4.0.bin`           the server looks for packages, and hasn't this one
  `size mini-4.0.bin 12 13`        its file has 13 bytes, and the script says 12
`omaha explain C11` explains a code. Split a script of more than 262144 bytes.

With --check it publishes nothing. It asks the server for its edition and its dump, and prints
`valid for edition 5` if the server would publish the script now. It doesn't look for 4096 editions.
Otherwise it fails with one of
  omaha: script F3 BadEntry edit[0].on   the script is invalid, with the location
  omaha: stale 5                         edition 5 is published, and `base` is another number
  omaha: edit 0: C11 UnknownRelease      the catalogue rejects an edit, the first one of number 0

With --packages it first compares each package that the script adds with its file in DIR. If some
differ, it prints a line for each, as `omaha check --packages` does, and publishes nothing.

If the command fails, it prints one line on standard error.
  omaha: file F       F can't be read, or has more than 262144 bytes
  omaha: read         standard input failed, or has more than 262144 bytes
  omaha: packages N   N packages differ from their files in DIR
  omaha: net ADDR     the server can't be reached at ADDR in time, or its reply isn't whole
  omaha: status N at ADDR: REASON
                      ADDR isn't the operator's address of an omaha server; or, with 500, the
                      server has no memory or can't keep the script: see its standard error
  omaha: write        standard output failed
  omaha: memory       out of memory
--timeout can't end the look-up of a host's name, nor the wait for a socket at PATH to accept.
If F was read, the script may be published after a failure. Publish it again: it is published only
once, and `stale` says so.

Exit status: 0 if the server published the script, 1 if it gave another reply or the command
failed, 2 if the arguments are invalid.

Examples, against `omaha serve` with `--operator 127.0.0.1:8081`:
  omaha publish --to 127.0.0.1:8081 --check stage.toml
  omaha publish --to 127.0.0.1:8081 stage.toml";

const NAME: &str = "The mirror's name";

const BUDGET: &str = "The budget in bytes, from the present one to 1152921504606846976 (2^60)";

const RAISE: &str = "Raises a mirror's budget on a running server.";

const AFTER_RAISE: &str =
    "The budget counts all that the mirror was granted since the server started. A server with --history
keeps the raise, but not what was granted: after a restart the mirror may be granted its whole
budget again. To leave it only the rest, stop the server, change `budget` in the profile that
`omaha history export` prints, and begin a new history with it.
`omaha raise` sends NAME and BUDGET as they are, and prints the server's reply:
  `raised m0 510`              the mirror `m0` has a budget of 510 bytes
  `refused B1 UnknownMirror`   no mirror has the name
  `refused B2 TooHigh`         the budget is above 2^60
  `refused B3 Lower 510`       the mirror has a budget of 510 bytes, which is above the new one
  `bad raise`                  NAME is empty or has a space, or BUDGET is no decimal number
                               without leading zeros
`omaha explain B3` explains a code, and `omaha status` prints what each mirror granted. Without
--history put the budget into the profile, too.

If the command fails, it prints one line on standard error.
  omaha: net ADDR   the server can't be reached at ADDR in time, or its reply isn't whole
  omaha: status N at ADDR: REASON
                    ADDR isn't the operator's address of an omaha server; or, with 500, the
                    server has no memory or can't keep the raise: see its standard error
  omaha: write      standard output failed
  omaha: memory     out of memory
--timeout can't end the look-up of a host's name, nor the wait for a socket at PATH to accept.
The budget may be raised after a failure. Raise it again: that changes nothing more.

Exit status: 0 if the budget was raised, 1 if the server gave another reply or the command failed,
2 if the arguments are invalid.

Example, against `omaha serve` with `--operator 127.0.0.1:8081`:
  omaha raise --to 127.0.0.1:8081 eu 1000000000";

const DUMP: &str = "Prints the profile that a running server has published.";

const AFTER_DUMP: &str = "The profile is a TOML file that `omaha serve` and `omaha check` read.
It has the published catalogue and the mirrors, with the keys in a fixed order and no comments.

With --verbose it also prints a line on standard error:
  omaha: edition 5 at 127.0.0.1:8081
A script for the dump has this base. If another script is published between the two requests, the
dump is newer than this number, and the script for it is stale.

If the command fails, it prints one line on standard error.
  omaha: net ADDR   the server can't be reached at ADDR in time, or its reply isn't whole
  omaha: status N at ADDR: REASON
                    ADDR isn't the operator's address of an omaha server; or, with 500, the
                    server has no memory
  omaha: write      standard output failed
  omaha: memory     out of memory
--timeout can't end the look-up of a host's name, nor the wait for a socket at PATH to accept.

Exit status: 0 if the profile was printed, 1 if the command failed, 2 if the arguments are invalid.

Example, against `omaha serve` with `--operator 127.0.0.1:8081`:
  omaha dump --to 127.0.0.1:8081 > catalogue.toml";

const STATUS: &str = "Prints a running server's edition, and what its mirrors granted.";

const AFTER_STATUS: &str = "Prints the server's reply:
  edition 5               the number of the published edition
  started 1764340000      when the server started, in seconds since 1 January 1970 UTC
  address 127.0.0.1:8080  the clients' address
  replies 3000            how many replies clients got since then
  eu 1000 of 2000000      the mirror `eu` granted 1000 bytes, of a budget of 2000000 bytes
What is granted counts from the server's start. A mirror that grants no more rejects clients, or the
next one is asked: raise its budget with `omaha raise`.

If the command fails, it prints one line on standard error.
  omaha: net ADDR   the server can't be reached at ADDR in time, or its reply isn't whole
  omaha: status N at ADDR: REASON
                    ADDR isn't the operator's address of an omaha server; or, with 500, the
                    server has no memory
  omaha: write      standard output failed
  omaha: memory     out of memory
--timeout can't end the look-up of a host's name, nor the wait for a socket at PATH to accept.

Exit status: 0 if the status was printed, 1 if the server gave another reply or the command failed,
2 if the arguments are invalid.

Example, against `omaha serve` with `--operator 127.0.0.1:8081`:
  omaha status --to 127.0.0.1:8081";

const PUBLISH_ENTRIES: [Entry<'static>; 5] = [
    Entry::WantedOption("to", "ADDR", TO),
    Entry::Flag("check", CHECK),
    Entry::PlainOption("packages", "DIR", PACKAGES),
    Entry::PlainOption("timeout", "SECONDS", TIMEOUT),
    Entry::Wanted("F", SCRIPT),
];

pub(crate) fn publish_command<'a>(alloc: Global) -> Making<'a>
    ensures { IsMade publish_app result.made }
{
    command_of(alloc, "publish", PUBLISH, AFTER_PUBLISH, &PUBLISH_ENTRIES)
}

const RAISE_ENTRIES: [Entry<'static>; 4] = [
    Entry::WantedOption("to", "ADDR", TO),
    Entry::PlainOption("timeout", "SECONDS", TIMEOUT),
    Entry::Wanted("NAME", NAME),
    Entry::Wanted("BUDGET", BUDGET),
];

pub(crate) fn raise_command<'a>(alloc: Global) -> Making<'a>
    ensures { IsMade raise_app result.made }
{
    command_of(alloc, "raise", RAISE, AFTER_RAISE, &RAISE_ENTRIES)
}

const SERVER_ENTRIES: [Entry<'static>; 2] = [
    Entry::WantedOption("to", "ADDR", TO),
    Entry::PlainOption("timeout", "SECONDS", TIMEOUT),
];

pub(crate) fn dump_command<'a>(alloc: Global) -> Making<'a>
    ensures { IsMade dump_app result.made }
{
    command_of(alloc, "dump", DUMP, AFTER_DUMP, &SERVER_ENTRIES)
}

pub(crate) fn status_command<'a>(alloc: Global) -> Making<'a>
    ensures { IsMade status_app result.made }
{
    command_of(alloc, "status", STATUS, AFTER_STATUS, &SERVER_ENTRIES)
}

// rule: Time limit of an exchange
/// How many seconds an exchange with the server may take, 30 without the option.
pub(crate) fn timeout_in(matches: &ArgMatches<'_>) -> Option<u64>
    ensures { result ≡ timeout_in (rows_of (found_of matches.now)) }
{
    seconds_in(matches, "timeout", 30)
}

/// The error for a time limit that is none, of the command of a full name.
pub(crate) fn invalid_timeout(alloc: Global, command: Making<'_>, name: &str) -> Error
    ensures { HasKind (ErrorKind.ValueValidation ∷ []) result }
{
    rejection(
        alloc,
        command,
        name,
        ErrorKind::ValueValidation,
        INVALID_TIMEOUT,
    )
}

// The script, how it is looked at, and where it is posted to.
fn publication_with(
    alloc: Global,
    timeout: u64,
    matches: &ArgMatches<'_>,
) -> Result<Publication, AllocError>
    ensures { IfOk result (λ publication. publication ≡ publication_with timeout (rows_of (found_of matches.now))) }
{
    let (to, script) = copy_strings(alloc, matches, "to", "F")?;
    let packages = optional_string(alloc, matches, "packages")?;
    let check = flag_in(matches, "check");
    Ok(Publication {
        to,
        script,
        check,
        packages,
        timeout,
    })
}

/// Reads the arguments of `publish`.
pub(crate) fn read_publication(alloc: Global, matches: &ArgMatches<'_>) -> Result<Command, Error>
    ensures faults { FailsBy (faults_of_timeout (rows_of (found_of matches.now))) result }
    ensures command { IfOk result (λ command. command ≡ Command.Publish (publication_in (rows_of (found_of matches.now)))) }
    ensures named { IfOk result IsAskable }
{
    let Some(timeout) = timeout_in(matches) else {
        return Err(invalid_timeout(alloc, publish_command(alloc), "omaha publish"));
    };
    match publication_with(alloc, timeout, matches) {
        Ok(publication) => Ok(Command::Publish(publication)),
        Err(error) => Err(out_of_memory(error)),
    }
}

fn raise_with(alloc: Global, timeout: u64, matches: &ArgMatches<'_>) -> Result<Raise, AllocError>
    ensures { IfOk result (λ raise. raise ≡ raise_with timeout (rows_of (found_of matches.now))) }
{
    let (name, budget) = copy_strings(alloc, matches, "NAME", "BUDGET")?;
    let to = copy_string(alloc, matches, "to")?;
    Ok(Raise {
        to,
        name,
        budget,
        timeout,
    })
}

/// Reads the arguments of `raise`.
pub(crate) fn read_raise(alloc: Global, matches: &ArgMatches<'_>) -> Result<Command, Error>
    ensures faults { FailsBy (faults_of_timeout (rows_of (found_of matches.now))) result }
    ensures command { IfOk result (λ command. command ≡ Command.Raise (raise_in (rows_of (found_of matches.now)))) }
    ensures named { IfOk result IsAskable }
{
    let Some(timeout) = timeout_in(matches) else {
        return Err(invalid_timeout(alloc, raise_command(alloc), "omaha raise"));
    };
    match raise_with(alloc, timeout, matches) {
        Ok(raise) => Ok(Command::Raise(raise)),
        Err(error) => Err(out_of_memory(error)),
    }
}

fn asked_with(
    alloc: Global,
    timeout: u64,
    matches: &ArgMatches<'_>,
) -> Result<ServerAsked, AllocError>
    ensures { IfOk result (λ asked. asked ≡ asked_with timeout (rows_of (found_of matches.now))) }
{
    let to = copy_string(alloc, matches, "to")?;
    Ok(ServerAsked { to, timeout })
}

/// Reads the arguments of `dump`.
pub(crate) fn read_dump(alloc: Global, matches: &ArgMatches<'_>) -> Result<Command, Error>
    ensures faults { FailsBy (faults_of_timeout (rows_of (found_of matches.now))) result }
    ensures command { IfOk result (λ command. command ≡ Command.Dump (server_in (rows_of (found_of matches.now)))) }
    ensures named { IfOk result IsAskable }
{
    let Some(timeout) = timeout_in(matches) else {
        return Err(invalid_timeout(alloc, dump_command(alloc), "omaha dump"));
    };
    match asked_with(alloc, timeout, matches) {
        Ok(asked) => Ok(Command::Dump(asked)),
        Err(error) => Err(out_of_memory(error)),
    }
}

/// Reads the arguments of `status`.
pub(crate) fn read_status(alloc: Global, matches: &ArgMatches<'_>) -> Result<Command, Error>
    ensures faults { FailsBy (faults_of_timeout (rows_of (found_of matches.now))) result }
    ensures command { IfOk result (λ command. command ≡ Command.Status (server_in (rows_of (found_of matches.now)))) }
    ensures named { IfOk result IsAskable }
{
    let Some(timeout) = timeout_in(matches) else {
        return Err(invalid_timeout(alloc, status_command(alloc), "omaha status"));
    };
    match asked_with(alloc, timeout, matches) {
        Ok(asked) => Ok(Command::Status(asked)),
        Err(error) => Err(out_of_memory(error)),
    }
}
