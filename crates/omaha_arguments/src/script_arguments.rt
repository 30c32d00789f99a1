// The arguments of the command `script`, as `clap` reads them.

ghost use Rattle.std.specs.Prelude.{◌≡◌, [], ◌∷◌, IfOk};
ghost use Rattle.clap.specs.Words.{FailsBy, HasKind, found_of, rows_of};
ghost use Rattle.omaha_arguments.specs.Options.{IsMade};
ghost use Rattle.omaha_arguments.specs.ScriptArguments.{base_in, faults_of_script, is_one_base, number_of_base, script_app, script_for, script_in};
ghost use Rattle.omaha_arguments.specs.WalkArguments.{IsAskable};

use crate::command::{Base, Command, Script};
use crate::options::{Entry, Making, command_of, number_in, optional_string, strings_in};
use crate::rejections::{out_of_memory, rejection};
use crate::serve_arguments::is_given;
use clap::error::ErrorKind;
use clap::{ArgMatches, Error};
use std::alloc::{AllocError, Global};

const SCRIPT: &str = "Prints the script of some edits, as `publish` takes it.";

const BASE: &str = "The number of the edition that the script is written for";

const TO: &str = "A running server in place of N: its operator's address, such as 127.0.0.1:8081";

const WORDS: &str = "What an edit does, and then its keys with their values: KEY=VALUE";

const NO_NUMBER: &str = "--base is a number below 2^64";

const TWO_BASES: &str = "name an edition by --base <N>, or a server by --to <ADDR>, and not both";

const AFTER_SCRIPT: &str =
    "A word without `=` begins an edit, and each word KEY=VALUE after it is one of its keys:
  add_app        app default
  add_cohort     app cohort
  add_release    app version name size sha256
  add_diff       app from to name size sha256
  set_target     app cohort [target] [held]
  set_share      app cohort share
  set_open       app cohort on
  set_rollback   app cohort on
  set_stone      app version on
  set_withdrawn  app version on
  set_audience   app version [cohorts]
  set_floor      app version floor
`on` is true or false, and `cohorts` is names with commas between them. docs/PROFILE.md describes
the keys. A word `--` may be between two edits.

If the command fails, it prints one line on standard error.
  omaha: script F3 BadEntry edit[0].share   there may be no such key, it lacks, or has another type
  omaha: script F1 NotToml                  a key is there twice, or N is 2^63 or more
  omaha: net ADDR                           the server can't be reached, or names no edition
  omaha: write                              standard output failed
  omaha: memory                             out of memory
What the edits say is checked by the server: see `omaha publish` and `omaha review`.

With --to the script is for the edition that the server has now; nothing is published. If another
script is published before it, the server replies `stale`.

Exit status: 0 if the script was printed, 1 if the command failed, 2 if the arguments are invalid.

Example: a tenth of the clients of a cohort get its target.
  omaha script --base 5 set_share app=editor cohort=stable share=100 |
    omaha publish --to 127.0.0.1:8081 -
  omaha script --to 127.0.0.1:8081 set_share app=editor cohort=stable share=100 > widen.toml";

const ENTRIES: [Entry<'static>; 3] = [
    Entry::PlainOption("base", "N", BASE),
    Entry::PlainOption("to", "ADDR", TO),
    Entry::WantedList("WORD", WORDS),
];

pub(crate) fn script_command<'a>(alloc: Global) -> Making<'a>
    ensures { IsMade script_app result.made }
{
    command_of(alloc, "script", SCRIPT, AFTER_SCRIPT, &ENTRIES)
}

// The number of `--base`.
fn number_of_base(matches: &ArgMatches<'_>) -> Option<u64>
    ensures { result ≡ number_of_base (rows_of (found_of matches.now)) }
{
    number_in(matches, "base", 1)
}

// Whether a number is given, or a server, and not both.
fn is_one_base(matches: &ArgMatches<'_>) -> bool
    ensures { result ≡ is_one_base (rows_of (found_of matches.now)) }
{
    let number = is_given(matches, "base");
    if is_given(matches, "to") {
        !number
    } else {
        number
    }
}

// The edition that the script is for: a server's, or else that of a number.
fn base_in(alloc: Global, number: u64, matches: &ArgMatches<'_>) -> Result<Base, AllocError>
    ensures { IfOk result (λ base. base ≡ base_in number (rows_of (found_of matches.now))) }
{
    match optional_string(alloc, matches, "to")? {
        Some(to) => Ok(Base::Server(to)),
        None => Ok(Base::Number(number)),
    }
}

// The error for a `--base` that is no number, or of a script for no edition or for two.
fn invalid_base(alloc: Global, message: &str) -> Error
    ensures { HasKind (ErrorKind.ValueValidation ∷ []) result }
{
    rejection(
        alloc,
        script_command(alloc),
        "omaha script",
        ErrorKind::ValueValidation,
        message,
    )
}

// Reads the edition and the words, beside the number of `--base`.
fn script_for(alloc: Global, number: u64, matches: &ArgMatches<'_>) -> Result<Script, AllocError>
    ensures { IfOk result (λ script. script ≡ script_for number (rows_of (found_of matches.now))) }
{
    let base = base_in(alloc, number, matches)?;
    let words = strings_in(alloc, matches, "WORD")?;
    Ok(Script { base, words })
}

// rule: Arguments of a script
/// Reads the arguments of `script`.
pub(crate) fn read_script(alloc: Global, matches: &ArgMatches<'_>) -> Result<Command, Error>
    ensures faults { FailsBy (faults_of_script (rows_of (found_of matches.now))) result }
    ensures command { IfOk result (λ command. command ≡ Command.Script (script_in (rows_of (found_of matches.now)))) }
    ensures named { IfOk result IsAskable }
{
    let Some(number) = number_of_base(matches) else {
        return Err(invalid_base(alloc, NO_NUMBER));
    };
    if !is_one_base(matches) {
        return Err(invalid_base(alloc, TWO_BASES));
    }
    match script_for(alloc, number, matches) {
        Ok(script) => Ok(Command::Script(script)),
        Err(error) => Err(out_of_memory(error)),
    }
}
