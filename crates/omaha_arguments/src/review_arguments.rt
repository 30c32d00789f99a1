// The arguments of the command `review`, as `clap` reads them.

ghost use Rattle.std.specs.Prelude.{◌≡◌, [], ◌∷◌, IfOk};
ghost use Rattle.clap.specs.Words.{FailsBy, HasKind, found_of, rows_of};
ghost use Rattle.omaha_arguments.specs.Options.{IsMade};
ghost use Rattle.omaha_arguments.specs.ReviewArguments.{faults_of_review, is_one_source, review_app, review_in, source_in};
ghost use Rattle.omaha_arguments.specs.WalkArguments.{IsAskable};

use crate::command::{Command, Review, Source};
use crate::options::{Entry, Making, command_of, copy_string, flag_in, optional_string};
use crate::rejections::{out_of_memory, rejection};
use crate::serve_arguments::is_given;
use clap::error::ErrorKind;
use clap::{ArgMatches, Error};
use std::alloc::{AllocError, Global};

const REVIEW: &str =
    "Prints which clients of a profile are stuck and why, or what a script changes.";

const TO: &str = "A running server in place of F: its operator's address, such as 127.0.0.1:8081";

const SCRIPT: &str = "The script whose changes are printed [default: the profile is reviewed]";

const ALL: &str = "Print all stuck releases [default: at most 40 of a track]";

const JSON: &str = "Print a JSON object on each line, with all stuck releases";

const STRICT: &str = "Fail if a release is stuck; with --script, if clients are newly stuck";

const AFTER_REVIEW: &str =
    r#"A release is stuck if no packages lead its clients to the target. Each line names a track by the
app, the cohort, the lane and whether clients allow a downgrade:
  track   mini stable held no: target 3.0, 4 releases, 1 stuck
  stuck   mini stable held no: 4.0, above the target without a downgrade
  largest mini stable held no: 1.0, 2 steps, 500 bytes
  longest mini stable held no: 1.0, 2 steps, 500 bytes
  new     mini stable held no: 1400 bytes
  total   4 tracks, 16 releases, 2 stuck
`largest` is the release whose clients download most, `longest` the one whose clients download most
packages one after the other, and `new` is for clients without a release.

The reason is the first rule without which the release wouldn't be stuck:
  the target is withdrawn              put another target, or take the withdrawal back
  the target is closed to the cohort   the target's audience leaves the cohort out
  a stone can't be reached             a stone is withdrawn, closed to the cohort or below its floor
  below a floor                        nothing leads up to the floor of a release
  above the target without a downgrade the cohort or the clients allow no downgrade
  several rules                        no rule alone is the reason

With --script it prints only what the script changes; its base is 1, as that of a profile:
  stuck   mini stable target no: 1.0, the target is withdrawn     newly stuck; these come first
  stuck   mini stable target no: new clients                      so are clients without a release
  larger  mini stable target no: 1.0, 750 bytes to 800 bytes      more bytes up to the target
  smaller mini stable target no: 1.0, 750 bytes to 350 bytes      fewer bytes
  other   mini stable target no: 2.0, 450 bytes to 450 bytes      another first package
  freed   mini stable held yes: 4.0, stuck to 1400 bytes          it was stuck
  total   4 tracks, 16 releases, 5 changed, 2 newly stuck

With --json it prints the same facts as objects, without spaces, for jq and other programs:
  {"app":"mini","bytes":1400,"cohort":"stable","downgrade":false,"kind":"new","lane":"held"}
The kind of an object is track, stuck, largest, longest or new; with --script it is newly_stuck,
larger, smaller, other or freed, with the bytes before and after. Bytes are null of clients who are
stuck, and new clients have no version. The last object's kind is summary, and no stuck release is
left out.

With --to it reviews what a running server has published; the base of a script is then the number of
the server's edition. If it isn't, the server's reply `stale N` is printed, and the status is 1.
Nothing is published.

With --strict it prints the same, and then `omaha: stuck N` on standard error if N releases are
stuck or, with --script, newly stuck. The new clients of a track count as one.

Exit status: 0 if the review was printed, 1 if --strict found a stuck release or the command failed,
2 if the arguments are invalid.

Examples:
  omaha review profile.toml
  omaha review profile.toml --script stage.toml --strict
  omaha review profile.toml --json | jq -r 'select(.kind == "stuck") | .version'
  omaha review --to 127.0.0.1:8081 --script stage.toml --strict"#;

const ENTRIES: [Entry<'static>; 6] = [
    Entry::Optional("F", "The profile"),
    Entry::PlainOption("to", "ADDR", TO),
    Entry::PlainOption("script", "S", SCRIPT),
    Entry::Flag("all", ALL),
    Entry::Flag("json", JSON),
    Entry::Flag("strict", STRICT),
];

pub(crate) fn review_command<'a>(alloc: Global) -> Making<'a>
    ensures { IsMade review_app result.made }
{
    command_of(alloc, "review", REVIEW, AFTER_REVIEW, &ENTRIES)
}

// Whether a profile is named, or a server, and not both.
fn is_one_source(matches: &ArgMatches<'_>) -> bool
    ensures { result ≡ is_one_source (rows_of (found_of matches.now)) }
{
    let profile = is_given(matches, "F");
    if is_given(matches, "to") {
        !profile
    } else {
        profile
    }
}

// Where the catalogue is.
fn source_in(alloc: Global, matches: &ArgMatches<'_>) -> Result<Source, AllocError>
    ensures { IfOk result (λ source. source ≡ source_in (rows_of (found_of matches.now))) }
{
    match optional_string(alloc, matches, "to")? {
        Some(to) => Ok(Source::Server(to)),
        None => Ok(Source::Profile(copy_string(alloc, matches, "F")?)),
    }
}

// The error of a review of no catalogue, or of two.
fn invalid_source(alloc: Global) -> Error
    ensures { HasKind (ErrorKind.ValueValidation ∷ []) result }
{
    rejection(
        alloc,
        review_command(alloc),
        "omaha review",
        ErrorKind::ValueValidation,
        "name a profile F, or a server by --to <ADDR>, and not both",
    )
}

// Reads what is reviewed, if one catalogue is named.
fn review_of(alloc: Global, matches: &ArgMatches<'_>) -> Result<Review, AllocError>
    ensures { IfOk result (λ review. review ≡ review_in (rows_of (found_of matches.now))) }
{
    let source = source_in(alloc, matches)?;
    let script = optional_string(alloc, matches, "script")?;
    Ok(Review {
        source,
        script,
        all: flag_in(matches, "all"),
        json: flag_in(matches, "json"),
        strict: flag_in(matches, "strict"),
    })
}

// rule: Arguments of a review
/// Reads the arguments of `review`.
pub(crate) fn read_review(alloc: Global, matches: &ArgMatches<'_>) -> Result<Command, Error>
    ensures faults { FailsBy (faults_of_review (rows_of (found_of matches.now))) result }
    ensures command { IfOk result (λ command. command ≡ Command.Review (review_in (rows_of (found_of matches.now)))) }
    ensures named { IfOk result IsAskable }
{
    if !is_one_source(matches) {
        return Err(invalid_source(alloc));
    }
    match review_of(alloc, matches) {
        Ok(review) => Ok(Command::Review(review)),
        Err(error) => Err(out_of_memory(error)),
    }
}
