// The arguments of the commands that report on a profile, as `clap` reads them.

ghost use Rattle.std.specs.Prelude.{◌≡◌, [], ◌∷◌, codes, IfOk, unwrap_or};
ghost use Rattle.clap.specs.Words.{FailsBy, HasKind, first_of, found_of, rows_of};
ghost use Rattle.omaha_arguments.specs.Options.{IsMade, string_in, strings_in, workers_in};
ghost use Rattle.omaha_arguments.specs.ReportArguments.{yes_or_no, certify_app, check_app, check_question_in, comparison_in, describe_app, explain_app, faults_of_certify, faults_of_check, faults_of_report, is_one_check, is_script_alone, lane_of, names_in, names_of, plain_question_in, question_in, question_with, report_in, report_on, verify_app};
ghost use Rattle.omaha_arguments.specs.WalkArguments.{IsAskable};

use crate::command::{Command, Comparison, Question, Report};
use crate::options::{
    Entry, Making, command_of, copy_string, copy_strings, flag_in, optional_string, string_in,
    strings_in, workers_in,
};
use crate::rejections::{out_of_memory, rejection};
use crate::serve_arguments::is_given;
use clap::error::ErrorKind;
use clap::{ArgMatches, Error};
use cohorts::{Lane, TrackNames};
use std::alloc::{AllocError, Global};
use values::Text;

const CHECK: &str = "Checks a profile, and prints what its catalogue has.";

const AFTER_CHECK: &str =
    "Prints one line: the edition's number, and how many apps, releases, differentials, cohorts and
tables of prices it has. If the profile is invalid, prints the first fault on standard error.

With --workers several threads make the tables of prices, which is faster for a large profile. What
is printed is the same.

With --warn it also prints a line for each target that no client can reach, as if it is withdrawn;
the status is the same:
  warning: app mini, cohort stable: nothing leads to 3.0

With --script it prints what the catalogue has after the script, which is for edition 1:
  edition 2: 1 apps, 4 releases, 3 differentials, 2 cohorts, 4 tables
If a server would reject the script, it prints one line on standard error:
  omaha: file S                          S can't be read, or has more than 262144 bytes
  omaha: script F3 BadEntry edit[0].on   the script is invalid, with the location
  omaha: stale 1                         the script has another base than 1
  omaha: edit 0: C11 UnknownRelease      an edit of the script is rejected

With --packages it also compares each declared package with its file in DIR. If some differ, it
prints a line for each in place of that line, and then `omaha: packages N` on standard error:
  mini-1.0.bin: missing                     DIR has no such file
  mini-2.0.bin: size 2599, declared 2600    it has another size
  mini-3.0.bin: sha256 differs              it has the size, and another SHA-256
  mini-3.0.bin: not a regular file          it is a link, a folder or a pipe
  mini-3.0.bin: unreadable                  it couldn't be read to its end

Exit status: 0 if the profile is valid and its packages agree, 1 if not or if the command failed, 2
if the arguments are invalid.

Examples:
  omaha check profile.toml
  omaha check profile.toml --packages packages
  omaha check profile.toml --workers 4
  omaha check profile.toml --warn
  omaha check profile.toml --script stage.toml";

const INVALID_WORKERS: &str = "--workers is a number from 1 to 8";

const WARN_AND_PACKAGES: &str = "--warn goes without --packages";

const SCRIPT_ALONE: &str = "--script goes without --warn and --packages";

const CERTIFY: &str = "Prints the certificate of a track: its least sums of bytes.";

const AFTER_CERTIFY: &str =
    "The certificate says for each release of APP the least sum of bytes of packages that lead to the
target, and the first of them. LANE is `target` for the clients that the cohort's target is rolled
out to, and `held` for the others. ROLLBACK is `yes` for clients that allow a downgrade; then the
cohort must allow one, too.

If there is no such app or cohort, or the cohort has no such target, prints `omaha: no track`.

Exit status: 0 if the certificate was written, 1 if the command failed, 2 if the arguments are
invalid.

Example:
  omaha certify profile.toml demo stable target no > stable.prices";

const VERIFY: &str = "Checks a certificate against a profile.";

const AFTER_VERIFY: &str =
    "Prints `certified` if each price is the least sum of bytes of its release. Otherwise prints one
line on standard error:
  omaha: P1 BadLine 8         line 8 of CERT is not well formed
  omaha: P2 NotOfThisGraph 8  line 8 doesn't fit the profile
  omaha: no track             the profile has no such track
  omaha: wrong 2.0 C3         the row of 2.0 breaks a rule

Exit status: 0 if the certificate is valid, 1 if not or if the command failed, 2 if the arguments
are invalid.

Example:
  omaha verify profile.toml stable.prices";

const DESCRIBE: &str = "Describes packages as a profile declares them.";

const AFTER_DESCRIBE: &str =
    "Prints three lines for each FILE, which a `[[app.release]]` or `[[app.diff]]` of a profile has:
  name = \"mini-1.0.bin\"
  size = 1960
  sha256 = \"656f60d8a092c8c25e0164886090b4ce46ba022eb801bdd480912ba47d1ac9f4\"

If a file can't be described, prints nothing but one line on standard error:
  omaha: file F: missing              there is no such file
  omaha: file F: not a regular file   it is a link, a folder or a pipe
  omaha: file F: unreadable           it couldn't be read to its end
  omaha: file F: no package name      no profile can have its name: 1 to 128 of A-Z a-z 0-9 . _ -
  omaha: file F: size 0, allowed 1 to 1099511627776

Exit status: 0 if all files were described, 1 if the command failed, 2 if the arguments are invalid.

Example:
  omaha describe packages/mini-*.bin";

const EXPLAIN: &str = "Explains a code that omaha prints, or lists them all.";

const AFTER_EXPLAIN: &str = "Prints what the code means, its usual cause and the remedy.

Exit status: 0 if the explanation was written, 1 if the command failed, 2 if the arguments are
invalid.

Example:
  omaha explain C11";

const CHECK_ENTRIES: [Entry<'static>; 5] = [
    Entry::Wanted("F", "The profile"),
    Entry::PlainOption(
        "packages",
        "DIR",
        "The folder of the packages [default: they are not compared]",
    ),
    Entry::PlainOption(
        "workers",
        "N",
        "How many threads make the tables of prices, 1 to 8 [default: 1]",
    ),
    Entry::Flag("warn", "Warn of targets that no client can reach"),
    Entry::PlainOption(
        "script",
        "S",
        "The script that is applied to the profile, and checked [default: none]",
    ),
];

pub(crate) fn check_command<'a>(alloc: Global) -> Making<'a>
    ensures { IsMade check_app result.made }
{
    command_of(alloc, "check", CHECK, AFTER_CHECK, &CHECK_ENTRIES)
}

const DESCRIBE_ENTRIES: [Entry<'static>; 1] = [Entry::WantedList("FILE", "A package")];

pub(crate) fn describe_command<'a>(alloc: Global) -> Making<'a>
    ensures { IsMade describe_app result.made }
{
    command_of(
        alloc,
        "describe",
        DESCRIBE,
        AFTER_DESCRIBE,
        &DESCRIBE_ENTRIES,
    )
}

const CERTIFY_ENTRIES: [Entry<'static>; 5] = [
    Entry::Wanted("F", "The profile"),
    Entry::Wanted("APP", "The app's identifier"),
    Entry::Wanted("COHORT", "The cohort's name"),
    Entry::Wanted("LANE", "`target` or `held`"),
    Entry::Wanted("ROLLBACK", "`yes` or `no`"),
];

pub(crate) fn certify_command<'a>(alloc: Global) -> Making<'a>
    ensures { IsMade certify_app result.made }
{
    command_of(alloc, "certify", CERTIFY, AFTER_CERTIFY, &CERTIFY_ENTRIES)
}

const VERIFY_ENTRIES: [Entry<'static>; 2] = [
    Entry::Wanted("F", "The profile"),
    Entry::Wanted("CERT", "The certificate"),
];

pub(crate) fn verify_command<'a>(alloc: Global) -> Making<'a>
    ensures { IsMade verify_app result.made }
{
    command_of(alloc, "verify", VERIFY, AFTER_VERIFY, &VERIFY_ENTRIES)
}

const EXPLAIN_ENTRIES: [Entry<'static>; 1] = [Entry::Optional(
    "CODE",
    "The code, or the first word of the line",
)];

pub(crate) fn explain_command<'a>(alloc: Global) -> Making<'a>
    ensures { IsMade explain_app result.made }
{
    command_of(alloc, "explain", EXPLAIN, AFTER_EXPLAIN, &EXPLAIN_ENTRIES)
}

/// Reads the arguments of `describe`.
pub(crate) fn read_paths(alloc: Global, matches: &ArgMatches<'_>) -> Result<Command, Error>
    ensures faults { FailsBy [] result }
    ensures command { IfOk result (λ command. command ≡ Command.Describe (strings_in (codes "FILE") (rows_of (found_of matches.now)))) }
    ensures named { IfOk result IsAskable }
{
    match strings_in(alloc, matches, "FILE") {
        Ok(paths) => Ok(Command::Describe(paths)),
        Err(error) => Err(out_of_memory(error)),
    }
}

/// Reads the arguments of `explain`.
pub(crate) fn read_code(alloc: Global, matches: &ArgMatches<'_>) -> Result<Command, Error>
    ensures faults { FailsBy [] result }
    ensures command { IfOk result (λ command. command ≡ Command.Explain (first_of (codes "CODE") (rows_of (found_of matches.now)))) }
    ensures named { IfOk result IsAskable }
{
    match optional_string(alloc, matches, "CODE") {
        Ok(code) => Ok(Command::Explain(code)),
        Err(error) => Err(out_of_memory(error)),
    }
}

// The lane of a word, if it is one.
fn lane_of(word: &str) -> Option<Lane>
    ensures { result ≡ lane_of word.now }
{
    match word {
        "target" => Some(Lane::Target),
        "held" => Some(Lane::Held),
        _ => None,
    }
}

// What `yes` or `no` says.
fn yes_or_no(word: &str) -> Option<bool>
    ensures { result ≡ yes_or_no word.now }
{
    match word {
        "yes" => Some(true),
        "no" => Some(false),
        _ => None,
    }
}

// The error for a LANE or a ROLLBACK of another word.
fn invalid_words(alloc: Global) -> Error
    ensures { HasKind (ErrorKind.ValueValidation ∷ []) result }
{
    rejection(
        alloc,
        certify_command(alloc),
        "omaha certify",
        ErrorKind::ValueValidation,
        "LANE is `target` or `held`, and ROLLBACK is `yes` or `no`",
    )
}

// Reads the names of an app and a cohort, beside the lane and the rollback.
fn names_of(
    alloc: Global,
    lane: Lane,
    rollback: bool,
    matches: &ArgMatches<'_>,
) -> Result<TrackNames, AllocError>
    ensures { IfOk result (λ names. names ≡ names_of lane rollback (rows_of (found_of matches.now))) }
{
    let (app, cohort) = copy_strings(alloc, matches, "APP", "COHORT")?;
    Ok(TrackNames {
        app,
        cohort,
        lane,
        rollback,
    })
}

// Reads the names of a track.
fn read_names(alloc: Global, matches: &ArgMatches<'_>) -> Result<Question, Error>
    ensures faults { FailsBy (faults_of_certify (rows_of (found_of matches.now))) result }
    ensures question { IfOk result (λ question. question ≡ Question.Certify (names_in (rows_of (found_of matches.now)))) }
{
    let lane = lane_of(string_in(matches, "LANE"));
    let rollback = yes_or_no(string_in(matches, "ROLLBACK"));
    let (Some(lane), Some(rollback)) = (lane, rollback) else {
        return Err(invalid_words(alloc));
    };
    match names_of(alloc, lane, rollback, matches) {
        Ok(names) => Ok(Question::Certify(names)),
        Err(error) => Err(out_of_memory(error)),
    }
}

// Reads the path of a certificate.
fn read_certificate(alloc: Global, matches: &ArgMatches<'_>) -> Result<Question, Error>
    ensures faults { FailsBy [] result }
    ensures question { IfOk result (λ question. question ≡ Question.Verify (string_in (codes "CERT") (rows_of (found_of matches.now)))) }
{
    match copy_string(alloc, matches, "CERT") {
        Ok(path) => Ok(Question::Verify(path)),
        Err(error) => Err(out_of_memory(error)),
    }
}

// The question of `check` without a script.
fn plain_question_in(matches: &ArgMatches<'_>) -> Question
    ensures { result ≡ plain_question_in (rows_of (found_of matches.now)) }
{
    if flag_in(matches, "warn") {
        Question::Warn
    } else {
        Question::Check
    }
}

// The question of `check`, perhaps with a script.
fn question_with(script: Option<Text>, matches: &ArgMatches<'_>) -> Question
    ensures { result ≡ question_with script (rows_of (found_of matches.now)) }
{
    match script {
        Some(script) => Question::Script(script),
        None => plain_question_in(matches),
    }
}

// Reads the question of `check`.
fn check_question_in(alloc: Global, matches: &ArgMatches<'_>) -> Result<Question, Error>
    ensures faults { FailsBy [] result }
    ensures question { IfOk result (λ question. question ≡ check_question_in (rows_of (found_of matches.now))) }
{
    match optional_string(alloc, matches, "script") {
        Ok(script) => Ok(question_with(script, matches)),
        Err(error) => Err(out_of_memory(error)),
    }
}

// Reads the question of a command.
fn read_question(alloc: Global, name: &str, matches: &ArgMatches<'_>) -> Result<Question, Error>
    ensures faults { FailsBy (faults_of_report name.now (rows_of (found_of matches.now))) result }
    ensures question { IfOk result (λ question. question ≡ question_in name.now (rows_of (found_of matches.now))) }
{
    match name {
        "check" => check_question_in(alloc, matches),
        "certify" => read_names(alloc, matches),
        _ => read_certificate(alloc, matches),
    }
}

// Reads the profile's path, beside the question.
fn report_on(
    alloc: Global,
    workers: usize,
    question: Question,
    matches: &ArgMatches<'_>,
) -> Result<Command, Error>
    ensures faults { FailsBy [] result }
    ensures command { IfOk result (λ command. command ≡ Command.Report (report_on workers question (rows_of (found_of matches.now)))) }
    ensures named { IfOk result IsAskable }
{
    match copy_string(alloc, matches, "F") {
        Ok(profile) => Ok(Command::Report(Report {
            profile,
            workers,
            question,
        })),
        Err(error) => Err(out_of_memory(error)),
    }
}

// rule: Arguments of a report
/// Reads the arguments of the command of a name, with so many threads.
pub(crate) fn read_report(
    alloc: Global,
    name: &str,
    workers: usize,
    matches: &ArgMatches<'_>,
) -> Result<Command, Error>
    ensures faults { FailsBy (faults_of_report name.now (rows_of (found_of matches.now))) result }
    ensures command { IfOk result (λ command. command ≡ Command.Report (report_in name.now workers (rows_of (found_of matches.now)))) }
    ensures named { IfOk result IsAskable }
{
    match read_question(alloc, name, matches) {
        Ok(question) => report_on(alloc, workers, question, matches),
        Err(error) => Err(error),
    }
}

// The error of the options of `check`.
fn invalid_check(alloc: Global, message: &str) -> Error
    ensures { HasKind (ErrorKind.ValueValidation ∷ []) result }
{
    rejection(
        alloc,
        check_command(alloc),
        "omaha check",
        ErrorKind::ValueValidation,
        message,
    )
}

// Whether `--warn` and `--packages` aren't given together.
fn is_one_check(matches: &ArgMatches<'_>) -> bool
    ensures { result ≡ is_one_check (rows_of (found_of matches.now)) }
{
    !(flag_in(matches, "warn") && is_given(matches, "packages"))
}

// Whether `--script`, if it is given, is without `--warn` and `--packages`.
fn is_script_alone(matches: &ArgMatches<'_>) -> bool
    ensures { result ≡ is_script_alone (rows_of (found_of matches.now)) }
{
    if is_given(matches, "script") {
        !flag_in(matches, "warn") && !is_given(matches, "packages")
    } else {
        true
    }
}

// rule: Number of workers
/// Reads how many threads `check` has for the tables.
pub(crate) fn read_workers(alloc: Global, matches: &ArgMatches<'_>) -> Result<usize, Error>
    ensures faults { FailsBy (faults_of_check (rows_of (found_of matches.now))) result }
    ensures valid { IfOk result (λ _. faults_of_check (rows_of (found_of matches.now)) ≡ []) }
    ensures workers { IfOk result (λ workers. workers ≡ unwrap_or (workers_in (rows_of (found_of matches.now))) 1) }
{
    let Some(workers) = workers_in(matches) else {
        return Err(invalid_check(alloc, INVALID_WORKERS));
    };
    if !is_one_check(matches) {
        return Err(invalid_check(alloc, WARN_AND_PACKAGES));
    }
    if !is_script_alone(matches) {
        return Err(invalid_check(alloc, SCRIPT_ALONE));
    }
    Ok(workers as usize)
}

// rule: Arguments of a comparison
/// Reads what to compare, with so many threads, if `check` is asked to.
pub(crate) fn read_comparison(
    alloc: Global,
    workers: usize,
    matches: &ArgMatches<'_>,
) -> Result<Option<Comparison>, AllocError>
    ensures { IfOk result (λ comparison. comparison ≡ comparison_in workers (rows_of (found_of matches.now))) }
{
    match optional_string(alloc, matches, "packages")? {
        None => Ok(None),
        Some(packages) => Ok(Some(Comparison {
            profile: copy_string(alloc, matches, "F")?,
            packages,
            workers,
        })),
    }
}
