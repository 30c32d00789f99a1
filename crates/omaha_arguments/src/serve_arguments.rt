// The options of the command `serve`.

ghost use Rattle.std.specs.Prelude.{◌≡◌, [], ◌∷◌, codes, IfOk, is_some};
ghost use Rattle.clap.specs.Words.{App, FailsBy, HasKind, first_of, found_of, rows_of};
ghost use Rattle.omaha_arguments.specs.Options.{IsMade};
ghost use Rattle.omaha_arguments.specs.ServeArguments.{bounds_in, connections_in, counts_in, faults_of_serve, files_in, follow_in, history_fault_in, is_followed, is_named, is_operator_allowed, is_operator_known, is_operator_local, is_shared, limit_in, limit_of, places_in, serve_app, serve_in, serve_with, with_limits, with_places};
ghost use Rattle.omaha_arguments.specs.WalkArguments.{IsAskable};

use crate::addresses::{has_known_port, is_local};
use crate::command::{Command, Serve};
use crate::history_paths::{history_fault, invalid_history};
use crate::options::{
    Entry, Making, copy_strings, flag_in, number_in, number_of, number_within, optional_string,
    seconds_in, titled, with_entries, workers_in,
};
use crate::rejections::{out_of_memory, rejection};
use clap::error::ErrorKind;
use clap::{ArgMatches, Error};
use etcd_records::{EtcdPathFault, is_etcd_path};
use std::alloc::{AllocError, Global};
use values::Text;

const SERVE: &str = "Serves a profile's catalogue and its packages over HTTP.";

const PROFILE: &str = "The catalogue and its mirrors: a TOML file of at most 256 MiB";

const HISTORY: &str = "Where to keep what is published: a file, etcd://.. [default: none]";

const HISTORY_LIMIT: &str = "How many bytes the history may have [default: 67108864]";

const FOLLOW: &str = "Milliseconds between two looks at etcd, 1 to 60000 [default: 500]";

const PACKAGES: &str = "The folder of the packages, each under its name in the catalogue";

const MUST_EXIST: &str = "Publish a release only if its packages are in the folder";

const LISTEN: &str = "The address and port to listen on, such as 127.0.0.1:8080";

const OPERATOR: &str = "The operator's address: 127.0.0.1:8081, unix:PATH [default: none]";

const ANYWHERE: &str = "The operator's address may be one that other machines reach";

const WORKERS: &str = "How many threads serve clients, 1 to 8 [default: 1]";

const SESSIONS: &str = "How many sessions of clients before it ends [default: no end]";

const EDITS: &str = "How many sessions of the operator before it ends [default: no end]";

const TIMEOUT: &str = "Seconds for a message, or part of a reply, 1 to 86400 [default: 30]";

const IDLE: &str = "Seconds between two messages of a client, 1 to 86400 [default: 60]";

const CONNECTIONS: &str = "How many clients may be connected at once [default: 16384]";

const PINNED: &str = "How many tables of pinned clients each worker keeps [default: 256]";

const LOG: &str = "The log of replies: a file, or - for standard error [default: none]";

const INVALID_COUNT: &str =
    "--workers is from 1 to 8, --sessions and --edits are below 2^64, and --timeout is from 1 to 86400 seconds";

const INVALID_BOUND: &str =
    "--idle is from 1 to 86400 seconds, --follow from 1 to 60000 milliseconds, --connections from 1 to 1048576, and --pinned-tables and --history-limit are below 2^64";

const NO_OPERATOR: &str =
    "a server with a history in etcd asks its own operator's address for the records of other servers: name one with a port by --operator 127.0.0.1:PORT or unix:PATH";

const NO_PROFILE: &str = "name a profile by --profile <F>, or a history by --history <FILE>";

const OPEN_OPERATOR: &str =
    "whoever reaches the operator's address may publish: name unix:PATH, 127.0.0.1:PORT or [::1]:PORT, or add --operator-anywhere";

const AFTER_SERVE: &str =
    "Prints `ready` when it listens. It replies to `POST /service/update2/json` and sends the packages
under `/p/`. Each worker is a thread that serves many connections at once, and no silent or slow
client holds up another. If as many are connected as may be, the one that has waited longest
between two messages is closed for the next. An operator may
`POST /operate` to the operator's address meanwhile: a script is published as the next edition,
`raise NAME BUDGET` raises a mirror's budget, `dump` gets the profile of what is published, and
`stop` ends the server once it has finished what it has begun: `omaha stop` waits for that.
Any program that reaches that address may publish, raise and stop; a page in a browser may not. So
it must be 127.x.x.x:PORT, [::1]:PORT, or unix:PATH, a socket that the server's user and its group
may use, unless --operator-anywhere is given. After a stop, or its last session, it prints one line
for each mirror: its name, and how many bytes it was granted.

By `GET` the operator's address shows /healthz, /status, /metrics for Prometheus, and a page, /.
With --verbose standard error says what is served, where, and each edition, raise and failed
download.

With --history each script and each raise is kept in that file before it takes effect and is
replied to, so a server that is started again has the edition, the catalogue and the budgets of all
that it replied to. A new file begins with the profile. Without --profile the file is enough; with
it the profile must still be the one that the file began with. `omaha history` reads the file.

With --history etcd://A,B,C/PREFIX the servers of one history share it, in the keys of etcd that
begin with PREFIX, and A, B and C, each HOST:PORT, are etcd's servers, without TLS. A script that
one of them publishes is published by all: each looks for new records every --follow
milliseconds, by a post to its own operator's address, which must be named. A server that no
server of etcd replies to serves what it has, and publishes nothing until one does.

With --packages-must-exist a script that adds a package which isn't in the folder with its size is
rejected, and the server starts only if the packages of its catalogue are there.

If the command fails, it prints one line on standard error.
  omaha: file F                F can't be read, has over 256 MiB, or can't be opened for the log
  omaha: file DIR              there is no such folder of packages
  omaha: F3 BadEntry app[0].id the profile is invalid, with the location
  omaha: edit 12: C11 UnknownRelease
                               an edit of the profile is rejected
  omaha: missing NAME          a package must be in the folder, and isn't
  omaha: size NAME 12 13       it has 13 bytes there, and the catalogue says 12
  omaha: history F: REASON     the history can't be opened or read, or began with another profile
  omaha: no place              a worker found no place among the readers of the editions
  omaha: net ADDR              ADDR is no address, is in use, or may not be listened on
  omaha: thread                a worker's thread can't be started; no connection was accepted
  omaha: write                 standard output failed
  omaha: memory                out of memory

Exit status: 0 after a stop or the last session, 1 if the command failed, 2 if the arguments are
invalid.

Example:
  omaha serve --profile profile.toml --packages packages --listen 127.0.0.1:8080 \\
    --operator 127.0.0.1:8081 --workers 4";

const PLACES: [Entry<'static>; 9] = [
    Entry::PlainOption("profile", "F", PROFILE),
    Entry::PlainOption("history", "FILE", HISTORY),
    Entry::PlainOption("history-limit", "BYTES", HISTORY_LIMIT),
    Entry::PlainOption("follow", "MS", FOLLOW),
    Entry::WantedOption("packages", "DIR", PACKAGES),
    Entry::Flag("packages-must-exist", MUST_EXIST),
    Entry::WantedOption("listen", "ADDR", LISTEN),
    Entry::PlainOption("operator", "ADDR", OPERATOR),
    Entry::Flag("operator-anywhere", ANYWHERE),
];

// The command with the options of what it serves and where.
fn with_places<'a>(alloc: Global, command: Making<'a>) -> Making<'a>
    ensures { (app : App) → IsMade app command.entry.made → IsMade (with_places app) result.made }
{
    with_entries(alloc, command, &PLACES)
}

const LIMITS: [Entry<'static>; 8] = [
    Entry::PlainOption("workers", "N", WORKERS),
    Entry::PlainOption("sessions", "K", SESSIONS),
    Entry::PlainOption("edits", "M", EDITS),
    Entry::PlainOption("timeout", "SECONDS", TIMEOUT),
    Entry::PlainOption("idle", "SECONDS", IDLE),
    Entry::PlainOption("connections", "COUNT", CONNECTIONS),
    Entry::PlainOption("pinned-tables", "COUNT", PINNED),
    Entry::PlainOption("log", "FILE", LOG),
];

// The command with the options of how much it serves, and of the log.
fn with_limits<'a>(alloc: Global, command: Making<'a>) -> Making<'a>
    ensures { (app : App) → IsMade app command.entry.made → IsMade (with_limits app) result.made }
{
    with_entries(alloc, command, &LIMITS)
}

pub(crate) fn serve_command<'a>(alloc: Global) -> Making<'a>
    ensures { IsMade serve_app result.made }
{
    let command = titled(alloc, "serve", SERVE, AFTER_SERVE);
    let command = with_places(alloc, command);
    with_limits(alloc, command)
}

// The number of sessions that a string says.
fn limit_of(text: &str) -> Option<Option<u64>>
    ensures { result ≡ limit_of text.now }
{
    match number_of(text) {
        None => None,
        Some(sessions) => Some(Some(sessions)),
    }
}

/// The number of an option, or `None` without it; or none if that is no number.
pub(crate) fn limit_in(matches: &ArgMatches<'_>, id: &str) -> Option<Option<u64>>
    ensures { result ≡ limit_in id.now (rows_of (found_of matches.now)) }
{
    match matches.get_str(id) {
        None => Some(None),
        Some(text) => limit_of(text),
    }
}

// How many connections may be open.
fn connections_in(matches: &ArgMatches<'_>) -> Option<u64>
    ensures { result ≡ connections_in (rows_of (found_of matches.now)) }
{
    number_within(matches, "connections", 16384, 1048576)
}

// How many milliseconds there are between two looks at a history.
fn follow_in(matches: &ArgMatches<'_>) -> Option<u64>
    ensures { result ≡ follow_in (rows_of (found_of matches.now)) }
{
    number_within(matches, "follow", 500, 60000)
}

/// Whether an option or an argument is given.
pub(crate) fn is_given(matches: &ArgMatches<'_>, id: &str) -> bool
    ensures { result ≡ is_some (first_of id.now (rows_of (found_of matches.now))) }
{
    match matches.get_str(id) {
        Some(_) => true,
        None => false,
    }
}

// Whether a profile or a history is named.
#[tactic(auto, unfolding(crate::specs::ServeArguments::is_named))]
fn is_named(matches: &ArgMatches<'_>) -> bool
    ensures { result ≡ is_named (rows_of (found_of matches.now)) }
{
    let by_profile = is_given(matches, "profile");
    let by_history = is_given(matches, "history");
    by_profile || by_history
}

// Whether the history, if there is one, is in etcd.
fn is_shared(matches: &ArgMatches<'_>) -> bool
    ensures { result ≡ is_shared (rows_of (found_of matches.now)) }
{
    match matches.get_str("history") {
        None => false,
        Some(path) => is_etcd_path(path),
    }
}

// Whether the operator's address is one that can be asked.
fn is_operator_known(matches: &ArgMatches<'_>) -> bool
    ensures { result ≡ is_operator_known (rows_of (found_of matches.now)) }
{
    match matches.get_str("operator") {
        None => false,
        Some(address) => has_known_port(address),
    }
}

// rule: Address that is asked for records
// Whether a server of a shared history has an operator's address that can be asked.
#[tactic(auto, unfolding(crate::specs::ServeArguments::is_followed))]
fn is_followed(matches: &ArgMatches<'_>) -> bool
    ensures { result ≡ is_followed (rows_of (found_of matches.now)) }
{
    let is_shared = is_shared(matches);
    let is_operator_known = is_operator_known(matches);
    !is_shared || is_operator_known
}

// What is wrong with the history's path, if it is one of etcd.
fn history_fault_in(matches: &ArgMatches<'_>) -> Option<EtcdPathFault>
    ensures { result ≡ history_fault_in (rows_of (found_of matches.now)) }
{
    match matches.get_str("history") {
        None => None,
        Some(path) => history_fault(path),
    }
}

// The error of an option, of a kind.
fn rejected_option(alloc: Global, kind: ErrorKind, message: &str) -> Error
    ensures { HasKind (kind ∷ []) result }
{
    rejection(alloc, serve_command(alloc), "omaha serve", kind, message)
}

// Whether the operator's address, if there is one, is reached by this machine alone.
fn is_operator_local(matches: &ArgMatches<'_>) -> bool
    ensures { result ≡ is_operator_local (rows_of (found_of matches.now)) }
{
    match matches.get_str("operator") {
        None => true,
        Some(address) => is_local(address),
    }
}

// rule: Address of an operator
// Whether the operator's address, if there is one, is reached by this machine alone or may be any.
#[tactic(auto, unfolding(crate::specs::ServeArguments::is_operator_allowed))]
fn is_operator_allowed(matches: &ArgMatches<'_>) -> bool
    ensures { result ≡ is_operator_allowed (rows_of (found_of matches.now)) }
{
    let may_be_any = flag_in(matches, "operator-anywhere");
    let is_local = is_operator_local(matches);
    may_be_any || is_local
}

// How many workers and sessions there are, and the time limit of a message.
#[derive(Clone, Copy)]
struct Counts {
    workers: u64,
    sessions: Option<u64>,
    edits: Option<u64>,
    timeout: u64,
}

// Reads them, if they are valid.
#[tactic(auto, unfolding(crate::specs::ServeArguments::has_counts, crate::specs::ServeArguments::counts_of))]
fn counts_in(matches: &ArgMatches<'_>) -> Option<Counts>
    ensures { result ≡ counts_in (rows_of (found_of matches.now)) }
{
    let (Some(workers), Some(sessions), Some(edits), Some(timeout)) = (
        workers_in(matches),
        limit_in(matches, "sessions"),
        limit_in(matches, "edits"),
        seconds_in(matches, "timeout", 30),
    ) else {
        return None;
    };
    Some(Counts {
        workers,
        sessions,
        edits,
        timeout,
    })
}

// The time limit between messages, the one between looks at a history, and how many connections, tables and bytes there
// may be.
#[derive(Clone, Copy)]
struct Bounds {
    idle: u64,
    follow: u64,
    connections: u64,
    pinned_tables: u64,
    history_limit: u64,
}

// Reads them, if they are valid.
#[tactic(auto, unfolding(crate::specs::ServeArguments::has_bounds, crate::specs::ServeArguments::bounds_of))]
fn bounds_in(matches: &ArgMatches<'_>) -> Option<Bounds>
    ensures { result ≡ bounds_in (rows_of (found_of matches.now)) }
{
    let (Some(idle), Some(follow), Some(connections), Some(pinned_tables), Some(history_limit)) = (
        seconds_in(matches, "idle", 60),
        follow_in(matches),
        connections_in(matches),
        number_in(matches, "pinned-tables", 256),
        number_in(matches, "history-limit", 67108864),
    ) else {
        return None;
    };
    Some(Bounds {
        idle,
        follow,
        connections,
        pinned_tables,
        history_limit,
    })
}

// The files that the server reads and writes.
#[derive(Drop)]
struct Files {
    profile: Option<Text>,
    history: Option<Text>,
    log: Option<Text>,
}

fn files_in(alloc: Global, matches: &ArgMatches<'_>) -> Result<Files, AllocError>
    ensures { IfOk result (λ files. files ≡ files_in (rows_of (found_of matches.now))) }
{
    Ok(Files {
        profile: optional_string(alloc, matches, "profile")?,
        history: optional_string(alloc, matches, "history")?,
        log: optional_string(alloc, matches, "log")?,
    })
}

// The folder that the server sends, and the addresses that it listens on.
#[derive(Drop)]
struct Places {
    packages: Text,
    listen: Text,
    operator: Option<Text>,
}

fn places_in(alloc: Global, matches: &ArgMatches<'_>) -> Result<Places, AllocError>
    ensures { IfOk result (λ places. places ≡ places_in (rows_of (found_of matches.now))) }
{
    let (packages, listen) = copy_strings(alloc, matches, "packages", "listen")?;
    let operator = optional_string(alloc, matches, "operator")?;
    Ok(Places {
        packages,
        listen,
        operator,
    })
}

// Reads the options that are no numbers, beside those that are.
fn serve_with(
    alloc: Global,
    counts: Counts,
    bounds: Bounds,
    matches: &ArgMatches<'_>,
) -> Result<Serve, AllocError>
    ensures { IfOk result (λ serve. serve ≡ serve_with counts bounds (rows_of (found_of matches.now))) }
{
    let Files {
        profile,
        history,
        log,
    } = files_in(alloc, matches)?;
    let Places {
        packages,
        listen,
        operator,
    } = places_in(alloc, matches)?;
    let packages_must_exist = flag_in(matches, "packages-must-exist");
    Ok(Serve {
        profile,
        history,
        history_limit: bounds.history_limit,
        follow: bounds.follow,
        packages,
        packages_must_exist,
        listen,
        operator,
        workers: counts.workers,
        sessions: counts.sessions,
        edits: counts.edits,
        timeout: counts.timeout,
        idle: bounds.idle,
        connections: bounds.connections,
        pinned_tables: bounds.pinned_tables,
        log,
    })
}

// rule: Options of the server
/// Reads the options of `serve`.
pub(crate) fn read_serve(alloc: Global, matches: &ArgMatches<'_>) -> Result<Command, Error>
    ensures faults { FailsBy (faults_of_serve (rows_of (found_of matches.now))) result }
    ensures command { IfOk result (λ command. command ≡ Command.Serve (serve_in (rows_of (found_of matches.now)))) }
    ensures named { IfOk result IsAskable }
{
    let Some(counts) = counts_in(matches) else {
        return Err(rejected_option(alloc, ErrorKind::ValueValidation, INVALID_COUNT));
    };
    let Some(bounds) = bounds_in(matches) else {
        return Err(rejected_option(alloc, ErrorKind::ValueValidation, INVALID_BOUND));
    };
    if let Some(fault) = history_fault_in(matches) {
        return Err(invalid_history(alloc, serve_command(alloc), "omaha serve", fault));
    }
    if !is_named(matches) {
        return Err(rejected_option(alloc, ErrorKind::MissingRequiredArgument, NO_PROFILE));
    }
    if !is_operator_allowed(matches) {
        return Err(rejected_option(alloc, ErrorKind::MissingRequiredArgument, OPEN_OPERATOR));
    }
    if !is_followed(matches) {
        return Err(rejected_option(alloc, ErrorKind::MissingRequiredArgument, NO_OPERATOR));
    }
    match serve_with(alloc, counts, bounds, matches) {
        Ok(serve) => Ok(Command::Serve(serve)),
        Err(error) => Err(out_of_memory(error)),
    }
}
