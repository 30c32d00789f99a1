// The options of the command `walk`.

ghost use Rattle.std.specs.Prelude.{◌≡◌, [], ◌∷◌, IfOk};
ghost use Rattle.clap.specs.Words.{FailsBy, HasKind, found_of, rows_of};
ghost use Rattle.omaha_arguments.specs.Options.{IsMade};
ghost use Rattle.omaha_arguments.specs.WalkArguments.{IsAskable, asked_in, client_in, faults_of_walk, is_appid, walk_app, walk_in, walk_with};

use crate::command::{Command, Walk};
use crate::operator_arguments::{INVALID_TIMEOUT, timeout_in};
use crate::options::{Entry, Making, command_of, copy_string, copy_strings, flag_in, string_in};
use crate::rejections::{out_of_memory, rejection};
use clap::error::ErrorKind;
use clap::{ArgMatches, Error};
use std::alloc::{AllocError, Global};
use values::Text;

const WALK: &str = "Walks along a server's offers as a client does, and installs nothing.";

const TO: &str = "The server: a host and a port, such as 127.0.0.1:8080";

const APP: &str = "The app's identifier, 1 to 256 bytes";

const INSTALLED: &str = "The installed version, or '' for none";

const FP: &str = "The fingerprint of the installed version [default: none]";

const COHORT: &str = "The cohort that the server sent last [default: none]";

const SESSION: &str = "The session's identifier [default: none]";

const PREFIX: &str = "Allowed versions: '4' for 4 and 4.1, '4.0$' for 4.0 alone [default: any]";

const ROLLBACK: &str = "Whether a downgrade is allowed";

const TIMEOUT: &str = "Seconds for a check, or 64 KiB of a download, 1 to 86400 [default: 30]";

const AFTER_WALK: &str =
    "Asks the server for an update, downloads what it offers, checks the length and the SHA-256, and
asks again as the client that has installed it, until there is no update. Prints a line for each
step and one at the end:
  step 1 full 1.0 1960
  step 2 diff 2.0 188
  step 3 diff 3.0 235
  done 3 steps 2383 bytes

FP is `1.` and the SHA-256 of the installed version's full package. A client that doesn't say it
isn't offered a differential at its first step.

P is what Chromium's policy TargetVersionPrefix says. The client is led to the highest release that
P allows and the server's target doesn't exclude, by releases that P allows; if it can't get there,
there is no update.

If the walk fails, it prints one line on standard error. The lines of the steps before stay.
  omaha: U1 Link           the server can't be reached, or its reply isn't whole
  omaha: U2 Reply          the reply is no reply for this app, or the server doesn't know the app
  omaha: U3 BadLength      a download has another length than was offered
  omaha: U4 BadHash        a download has another SHA-256 than was offered
  omaha: U5 Install        the line of a step couldn't be printed
  omaha: U6 NoProgress     the installed fingerprint was offered
  omaha: U7 TooManySteps   there was an offer after 1024 steps
  omaha: U8 Busy           the server had no mirror with room
  omaha: write             standard output failed
  omaha: memory            out of memory
--timeout can't end the look-up of a host's name.

Exit status: 0 if there is no update any more, 1 if the walk failed, 2 if the arguments are invalid.

Example, against `omaha serve --profile mini.toml --packages packages --listen 127.0.0.1:8080`:
  omaha walk --to 127.0.0.1:8080 --app mini --version ''";

const ENTRIES: [Entry<'static>; 9] = [
    Entry::WantedOption("to", "ADDR", TO),
    Entry::WantedOption("app", "A", APP),
    Entry::WantedOption("version", "V", INSTALLED),
    Entry::PlainOption("fp", "FP", FP),
    Entry::PlainOption("cohort", "C", COHORT),
    Entry::PlainOption("session", "S", SESSION),
    Entry::PlainOption("prefix", "P", PREFIX),
    Entry::Flag("rollback", ROLLBACK),
    Entry::PlainOption("timeout", "SECONDS", TIMEOUT),
];

pub(crate) fn walk_command<'a>(alloc: Global) -> Making<'a>
    ensures { IsMade walk_app result.made }
{
    command_of(alloc, "walk", WALK, AFTER_WALK, &ENTRIES)
}

const INVALID_APP: &str = "--app is an identifier of 1 to 256 bytes";

// The error for an option that isn't what it has to be.
fn invalid_walk(alloc: Global, message: &str) -> Error
    ensures { HasKind (ErrorKind.ValueValidation ∷ []) result }
{
    let command = walk_command(alloc);
    rejection(
        alloc,
        command,
        "omaha walk",
        ErrorKind::ValueValidation,
        message,
    )
}

// Whether a string is an app's identifier.
fn is_appid(app: &str) -> bool
    ensures { result ≡ is_appid app.now }
{
    0 < app.len() && app.len() < 257
}

// The server that is asked, for which app and in which session.
#[derive(Drop)]
struct Asked {
    to: Text,
    app: Text,
    session: Text,
}

fn asked_in(alloc: Global, matches: &ArgMatches<'_>) -> Result<Asked, AllocError>
    ensures { IfOk result (λ asked. asked ≡ asked_in (rows_of (found_of matches.now))) }
{
    let (to, app) = copy_strings(alloc, matches, "to", "app")?;
    let session = copy_string(alloc, matches, "session")?;
    Ok(Asked { to, app, session })
}

// What the client has, and may have.
#[derive(Drop)]
struct Client {
    version: Text,
    fp: Text,
    cohort: Text,
    prefix: Text,
}

fn client_in(alloc: Global, matches: &ArgMatches<'_>) -> Result<Client, AllocError>
    ensures { IfOk result (λ client. client ≡ client_in (rows_of (found_of matches.now))) }
{
    let (version, fp) = copy_strings(alloc, matches, "version", "fp")?;
    let (cohort, prefix) = copy_strings(alloc, matches, "cohort", "prefix")?;
    Ok(Client {
        version,
        fp,
        cohort,
        prefix,
    })
}

// Reads the options, whatever the identifier is, with such a time limit.
fn walk_with(alloc: Global, timeout: u64, matches: &ArgMatches<'_>) -> Result<Walk, AllocError>
    ensures { IfOk result (λ walk. walk ≡ walk_with timeout (rows_of (found_of matches.now))) }
{
    let Asked { to, app, session } = asked_in(alloc, matches)?;
    let Client {
        version,
        fp,
        cohort,
        prefix,
    } = client_in(alloc, matches)?;
    let rollback = flag_in(matches, "rollback");
    Ok(Walk {
        to,
        app,
        version,
        fp,
        cohort,
        session,
        prefix,
        rollback,
        timeout,
    })
}

// rule: Options of a walk
/// Reads the options of `walk`.
pub(crate) fn read_walk(alloc: Global, matches: &ArgMatches<'_>) -> Result<Command, Error>
    ensures faults { FailsBy (faults_of_walk (rows_of (found_of matches.now))) result }
    ensures command { IfOk result (λ command. command ≡ Command.Walk (walk_in (rows_of (found_of matches.now)))) }
    ensures named { IfOk result IsAskable }
{
    if !is_appid(string_in(matches, "app")) {
        return Err(invalid_walk(alloc, INVALID_APP));
    }
    let Some(timeout) = timeout_in(matches) else {
        return Err(invalid_walk(alloc, INVALID_TIMEOUT));
    };
    match walk_with(alloc, timeout, matches) {
        Ok(walk) => Ok(Command::Walk(walk)),
        Err(error) => Err(out_of_memory(error)),
    }
}
