// The arguments of the command `stop`, as `clap` reads them.

ghost use Rattle.std.specs.Prelude.{◌≡◌, IfOk};
ghost use Rattle.clap.specs.Words.{FailsBy, found_of, rows_of};
ghost use Rattle.omaha_arguments.specs.Options.{IsMade};
ghost use Rattle.omaha_arguments.specs.StopArguments.{faults_of_stop, stop_app, stop_in, stop_timeout_in, stop_with};
ghost use Rattle.omaha_arguments.specs.WalkArguments.{IsAskable};

use crate::command::{Command, Stop};
use crate::operator_arguments::{TO, invalid_timeout};
use crate::options::{Entry, Making, command_of, copy_string, seconds_in};
use crate::rejections::out_of_memory;
use clap::{ArgMatches, Error};
use std::alloc::{AllocError, Global};

const TIMEOUT: &str = "Seconds that the server may take to end, 1 to 86400 [default: 80]";

const STOP: &str = "Stops a running server, which finishes what it has begun.";

const AFTER_STOP: &str =
    "Prints the server's reply, `stopping`, and waits until the server has ended. The server accepts no
more clients, closes idle connections, and finishes each request, reply and download that has
begun. Then it prints its totals and exits with status 0. A large download may take long: the
server's own --timeout limits each part of it, and not the whole.

The wait ends when ADDR rejects a connection, or the socket at PATH is gone. If the server hasn't
ended after --timeout seconds, the command fails; the server goes on, and ends when it has finished.

Only a server with --operator can be stopped so. A signal, such as SIGTERM, ends a server at once:
what it sends then is cut off, and its totals aren't printed. What was published is kept by
--history either way.

If the command fails, it prints one line on standard error.
  omaha: net ADDR        the server can't be reached at ADDR in time, or its reply isn't whole
  omaha: status N at ADDR: REASON
                         ADDR isn't the operator's address of an omaha server
  omaha: stopping ADDR   the server hasn't finished in time
  omaha: write           standard output failed
  omaha: memory          out of memory
--timeout can't end the look-up of a host's name, nor the wait for a socket at PATH to accept.
The server may be stopping after a failure. Stop it again: that changes nothing more.

Exit status: 0 if the server has ended, 1 if it gave another reply or the command failed, 2 if the
arguments are invalid.

Example, against `omaha serve` with `--operator 127.0.0.1:8081`:
  omaha stop --to 127.0.0.1:8081 --timeout 600";

const ENTRIES: [Entry<'static>; 2] = [
    Entry::WantedOption("to", "ADDR", TO),
    Entry::PlainOption("timeout", "SECONDS", TIMEOUT),
];

pub(crate) fn stop_command<'a>(alloc: Global) -> Making<'a>
    ensures { IsMade stop_app result.made }
{
    command_of(alloc, "stop", STOP, AFTER_STOP, &ENTRIES)
}

// rule: Time limit of a stop
// How many seconds the server may take to end, 80 without the option.
fn stop_timeout_in(matches: &ArgMatches<'_>) -> Option<u64>
    ensures { result ≡ stop_timeout_in (rows_of (found_of matches.now)) }
{
    seconds_in(matches, "timeout", 80)
}

fn stop_with(alloc: Global, timeout: u64, matches: &ArgMatches<'_>) -> Result<Stop, AllocError>
    ensures { IfOk result (λ stop. stop ≡ stop_with timeout (rows_of (found_of matches.now))) }
{
    let to = copy_string(alloc, matches, "to")?;
    Ok(Stop { to, timeout })
}

/// Reads the arguments of `stop`.
pub(crate) fn read_stop(alloc: Global, matches: &ArgMatches<'_>) -> Result<Command, Error>
    ensures faults { FailsBy (faults_of_stop (rows_of (found_of matches.now))) result }
    ensures command { IfOk result (λ command. command ≡ Command.Stop (stop_in (rows_of (found_of matches.now)))) }
    ensures named { IfOk result IsAskable }
{
    let Some(timeout) = stop_timeout_in(matches) else {
        return Err(invalid_timeout(alloc, stop_command(alloc), "omaha stop"));
    };
    match stop_with(alloc, timeout, matches) {
        Ok(stop) => Ok(Command::Stop(stop)),
        Err(error) => Err(out_of_memory(error)),
    }
}
