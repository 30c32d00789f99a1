// The command line, as `clap` reads it.

ghost use Rattle.std.specs.Prelude.{◌≡◌, [], true, IfErr, IfOk, map, string_bytes};
ghost use Rattle.clap.specs.Words.{App, FailsBy, app_of, found_of, rows_of, with_subcommand};
ghost use Rattle.omaha_arguments.specs.Commands.{check_in, command_in, faults_in, faults_of, invocation_in, invocation_of, name_of, omaha_app, other_name_of, plain_app};
ghost use Rattle.omaha_arguments.specs.Errors.{IsWhy};
ghost use Rattle.omaha_arguments.specs.Options.{IsMade, with_verbose};
ghost use Rattle.omaha_arguments.specs.ReportArguments.{faults_of_check};
ghost use Rattle.omaha_arguments.specs.WalkArguments.{IsAskable};

use crate::command::{Command, Invocation, Once};
use crate::error::{ArgumentError, argument_error};
use crate::graph_arguments::{graph_command, read_graph};
use crate::history_arguments::{history_command, read_history};
use crate::once_arguments::{once_command, read_once};
use crate::operator_arguments::{
    dump_command, publish_command, raise_command, read_dump, read_publication, read_raise,
    read_status, status_command,
};
use crate::options::{Making, flag_in, with_verbose};
use crate::report_arguments::{
    certify_command, check_command, describe_command, explain_command, read_code, read_comparison,
    read_paths, read_report, read_workers, verify_command,
};
use crate::review_arguments::{read_review, review_command};
use crate::script_arguments::{read_script, script_command};
use crate::serve_arguments::{read_serve, serve_command};
use crate::stop_arguments::{read_stop, stop_command};
use crate::walk_arguments::{read_walk, walk_command};
use clap::{ArgMatches, Error};
use std::alloc::{AllocError, Global};

/// The version of the program.
pub const VERSION: &str = "0.3.0";

const OMAHA: &str = "Replies to Omaha 3.1 update checks from a catalogue of releases.";

const AFTER_OMAHA: &str = "Without a command, omaha does what `omaha once` does without options.

A command that fails prints one line on standard error. With --verbose, or on a terminal, a second
line says what is wrong, where, and what to do.

Example: a client without an installed version asks for the built-in app `mini`.
  echo '{\"request\":{\"app\":[{\"appid\":\"mini\",\"updatecheck\":{}}],\"protocol\":\"3.1\"}}' | omaha";

// The program without its commands.
fn plain_command<'a>(alloc: Global) -> Making<'a>
    ensures { IsMade plain_app result.made }
{
    let command = clap::Command::new(alloc, "omaha")
        .no_binary_name(true)
        .version(VERSION)
        .about(OMAHA)
        .after_help(AFTER_OMAHA);
    Making {
        made: command.bin_name("omaha"),
    }
}

// The program with one more command, which is made.
fn with_made<'a>(program: Making<'a>, command: clap::Command<'a>) -> Making<'a>
    ensures { (app own : App) → own.top.is_plain ≡ true → IsMade app program.entry.made → app_of command.entry ≡ own →
        IsMade (with_subcommand app own.top) result.made }
{
    match program.into_made() {
        Ok(program) => Making {
            made: program.subcommand(command),
        },
        Err(error) => Making { made: Err(error) },
    }
}

// The program with one more command, which has `--verbose` too.
fn with_command<'a>(alloc: Global, program: Making<'a>, command: Making<'a>) -> Making<'a>
    ensures { (app own : App) → (with_verbose own).top.is_plain ≡ true → IsMade app program.entry.made → IsMade own command.entry.made →
        IsMade (with_subcommand app (with_verbose own).top) result.made }
{
    match with_verbose(alloc, command).into_made() {
        Ok(command) => with_made(program, command),
        Err(error) => Making { made: Err(error) },
    }
}

// The program with its commands, those for operators first, as it is being made.
fn making_omaha<'a>(alloc: Global) -> Making<'a>
    ensures { IsMade omaha_app result.made }
{
    let program = plain_command(alloc);
    let program = with_command(alloc, program, serve_command(alloc));
    let program = with_command(alloc, program, publish_command(alloc));
    let program = with_command(alloc, program, script_command(alloc));
    let program = with_command(alloc, program, raise_command(alloc));
    let program = with_command(alloc, program, dump_command(alloc));
    let program = with_command(alloc, program, status_command(alloc));
    let program = with_command(alloc, program, stop_command(alloc));
    let program = with_command(alloc, program, history_command(alloc));
    let program = with_command(alloc, program, check_command(alloc));
    let program = with_command(alloc, program, review_command(alloc));
    let program = with_command(alloc, program, graph_command(alloc));
    let program = with_command(alloc, program, walk_command(alloc));
    let program = with_command(alloc, program, describe_command(alloc));
    let program = with_command(alloc, program, certify_command(alloc));
    let program = with_command(alloc, program, verify_command(alloc));
    let program = with_command(alloc, program, explain_command(alloc));
    with_command(alloc, program, once_command(alloc))
}

// The program with its commands.
fn omaha_command<'a>(alloc: Global) -> Result<clap::Command<'a>, AllocError>
    ensures { IsMade omaha_app result }
{
    making_omaha(alloc).into_made()
}

// Reads the arguments of `check`.
fn read_check(alloc: Global, matches: &ArgMatches<'_>) -> Result<Command, Error>
    ensures faults { FailsBy (faults_of_check (rows_of (found_of matches.now))) result }
    ensures command { IfOk result (λ command. command ≡ check_in (rows_of (found_of matches.now))) }
    ensures named { IfOk result IsAskable }
{
    let workers = read_workers(alloc, matches)?;
    match read_comparison(alloc, workers, matches)? {
        Some(comparison) => Ok(Command::Compare(comparison)),
        None => read_report(alloc, "check", workers, matches),
    }
}

// A command by its name.
#[derive(Clone, Copy)]
enum Name {
    Once,
    Serve,
    Publish,
    Script,
    Raise,
    Dump,
    Status,
    Stop,
    History,
    Explain,
    Walk,
    Describe,
    Check,
    Review,
    Graph,
    Other,
}

// A command that is no operator's.
#[tactic(auto, unfolding(crate::specs::Commands::other_name_of))]
fn other_name_of(name: &str) -> Name
    ensures { result ≡ other_name_of name.now }
{
    match name {
        "once" => Name::Once,
        "check" => Name::Check,
        "review" => Name::Review,
        "graph" => Name::Graph,
        "walk" => Name::Walk,
        "describe" => Name::Describe,
        "explain" => Name::Explain,
        _ => Name::Other,
    }
}

#[tactic(auto, unfolding(crate::specs::Commands::name_of))]
fn name_of(name: &str) -> Name
    ensures { result ≡ name_of name.now }
{
    match name {
        "serve" => Name::Serve,
        "publish" => Name::Publish,
        "script" => Name::Script,
        "raise" => Name::Raise,
        "dump" => Name::Dump,
        "status" => Name::Status,
        "stop" => Name::Stop,
        "history" => Name::History,
        _ => other_name_of(name),
    }
}

// Reads the arguments of a command.
fn read_command(alloc: Global, name: &str, matches: &ArgMatches<'_>) -> Result<Command, Error>
    ensures faults { FailsBy (faults_in name.now (rows_of (found_of matches.now))) result }
    ensures command { IfOk result (λ command. command ≡ command_in name.now (rows_of (found_of matches.now))) }
    ensures named { IfOk result IsAskable }
{
    match name_of(name) {
        Name::Once => read_once(alloc, matches),
        Name::Serve => read_serve(alloc, matches),
        Name::Publish => read_publication(alloc, matches),
        Name::Script => read_script(alloc, matches),
        Name::Raise => read_raise(alloc, matches),
        Name::Dump => read_dump(alloc, matches),
        Name::Status => read_status(alloc, matches),
        Name::Stop => read_stop(alloc, matches),
        Name::History => read_history(alloc, matches),
        Name::Explain => read_code(alloc, matches),
        Name::Walk => read_walk(alloc, matches),
        Name::Describe => read_paths(alloc, matches),
        Name::Check => read_check(alloc, matches),
        Name::Review => read_review(alloc, matches),
        Name::Graph => read_graph(alloc, matches),
        Name::Other => read_report(alloc, name, 1, matches),
    }
}

// Reads the arguments of a command, and whether it says more.
fn read_invocation(alloc: Global, name: &str, matches: &ArgMatches<'_>) -> Result<Invocation, Error>
    ensures faults { FailsBy (faults_in name.now (rows_of (found_of matches.now))) result }
    ensures invocation { IfOk result (λ asked. asked ≡ invocation_in name.now (rows_of (found_of matches.now))) }
    ensures named { IfOk result (λ asked. IsAskable asked.command) }
{
    let verbose = flag_in(matches, "verbose");
    match read_command(alloc, name, matches) {
        Ok(command) => Ok(Invocation { command, verbose }),
        Err(error) => Err(error),
    }
}

// Reads the arguments after the program's name, or has `clap`'s error.
fn parse(alloc: Global, arguments: &[String]) -> Result<Invocation, Error>
    ensures faults { FailsBy (faults_of (map string_bytes arguments.now)) result }
    ensures invocation { IfOk result (λ asked. asked ≡ invocation_of (map string_bytes arguments.now)) }
    ensures named { IfOk result (λ asked. IsAskable asked.command) }
{
    let matches = omaha_command(alloc)?.try_get_matches_from(arguments)?;
    match matches.subcommand() {
        None => Ok(Invocation {
            command: Command::Once(Once {
                profile: None,
                moment: 0,
            }),
            verbose: false,
        }),
        Some((name, options)) => read_invocation(alloc, name, options),
    }
}

// rule: Arguments of the command line
// rule: Rejected arguments
/// Reads the arguments after the program's name.
///
/// Without arguments that is the command `once` without options. Fails with `Shown` if they ask for the help
/// or the version; with `Invalid` if `clap` rejects them, if `--moment` is no decimal number below 2^64, if
/// `--workers` is none from 1 to 8, if a `--timeout` is none from 1 to 86400, if LANE is neither `target` nor `held`, if
/// ROLLBACK is neither `yes` nor `no`, or if the `--app` of `walk` has not 1 to 256 bytes; and with `Memory` if an
/// allocation fails.
pub fn read_arguments(alloc: Global, arguments: &[String]) -> Result<Invocation, ArgumentError>
    ensures invocation { IfOk result (λ asked.
        (faults_of (map string_bytes arguments.now) ≡ []) × (asked ≡ invocation_of (map string_bytes arguments.now))) }
    ensures named { IfOk result (λ asked. IsAskable asked.command) }
    ensures error { IfErr result (λ error. IsWhy (faults_of (map string_bytes arguments.now)) error) }
{
    match parse(alloc, arguments) {
        Ok(asked) => Ok(asked),
        Err(error) => Err(argument_error(alloc, &error)),
    }
}
