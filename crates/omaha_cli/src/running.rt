// A run of the program, from its arguments to its exit status.

ghost use Rattle.std.specs.Prelude.{◌≡◌, map, string_bytes};
ghost use Rattle.omaha_arguments.specs.WalkArguments.{IsAskable};
ghost use Rattle.omaha_cli.specs.Doing.{Does, Logs};
ghost use Rattle.omaha_cli.specs.Running.{Ends, EndsBy, EndsTask, IsAdvised, IsLoggedBy, IsManner, IsMistaken, IsReported, IsPrinted, PrintsAdvice, Runs, Shows, code_of, ending_of, status_of};

use crate::serving::serve_profile;
use crate::watched::Watched;
use advice::{Looks, advice_on};
use failures::Failure;
use http_ports::Port;
use kept_records::Stores;
use omaha_arguments::{ArgumentError, Command, Invocation, read_arguments};
use omaha_commands::{
    Manner, compare_on, describe_files, dump_on, explain_code, graph_on, print_script, publish_on,
    raise_on, report_on, respond, review_on, status_on, stop_on, walk_on,
};
use omaha_histories::print_history;
use package_files::Folders;
use std::alloc::Global;
use std::sync::Wait;
use std::thread::Threads;
use std::time::Clock;
use streams::{Disk, ReadWhole, WriteWhole, offer};
use systems::System;
use update_client::Connector;
use values::Text;

/// How a run ends.
#[derive(Drop)]
pub enum Ending {
    /// The command did what it does: the reply or the report was written.
    Replied,
    /// The help or the version was printed.
    Shown,
    /// The command failed.
    Failed(Failure),
    /// The arguments are invalid, as this message says.
    Mistaken(Text),
}

/// An exit status.
#[derive(Clone, Copy)]
pub enum Status {
    /// The reply was written, or the help or the version printed.
    Success,
    /// The command failed.
    Failure,
    /// The arguments are invalid.
    Usage,
}

impl Ending {
    // The exit status after such an ending.
    fn status(&self) -> Status
        ensures { result ≡ status_of self.now }
    {
        match self {
            Ending::Replied => Status::Success,
            Ending::Shown => Status::Success,
            Ending::Failed(_) => Status::Failure,
            Ending::Mistaken(_) => Status::Usage,
        }
    }
}

impl Status {
    // The status as a process returns it.
    fn code(self) -> u8
        ensures { result ≡ code_of self }
    {
        match self {
            Status::Success => 0,
            Status::Failure => 1,
            Status::Usage => 2,
        }
    }
}

// Prints what the arguments ask to be shown.
fn show<W: WriteWhole>(text: &str, writer: &mut W) -> Ending
    ensures { Shows text.now (W.output writer.old) (W.output writer.new) result }
{
    match writer.write_whole(text.as_bytes()) {
        Ok(()) => Ending::Shown,
        Err(_) => Ending::Failed(Failure::Write),
    }
}

// Ends a run whose arguments ask for no command.
fn end_without_command<W: WriteWhole>(error: ArgumentError, writer: &mut W) -> Ending
    ensures ends { EndsBy error (W.output writer.old) (W.output writer.new) result }
    ensures untouched { IsMistaken result → writer.new ≡ writer.old }
{
    match error {
        ArgumentError::Shown(text) => show(text.as_str(), writer),
        ArgumentError::Invalid(text) => Ending::Mistaken(text),
        ArgumentError::Memory => Ending::Failed(Failure::Memory),
    }
}

/// A command, and how it prints.
#[derive(Drop)]
pub struct Task {
    /// The command.
    pub command: Command,
    /// How it prints.
    pub manner: Manner,
}

// Does what a command asks for.
fn obey<
    P: Port + Send + Drop,
    S: System<P> + Sync,
    R: Disk + Folders + Clock + Connector + Looks + AllocGlobal + Threads + Sync + Wait,
    H: Stores,
    I: ReadWhole,
    W: WriteWhole + Watched,
    F: WriteWhole + Send + Watched,
>(
    rt: &R,
    system: &S,
    stores: &H,
    task: &Task,
    reader: &mut I,
    writer: &mut W,
    errors: &mut F,
) -> Result<(), Failure>
    requires { IsAskable task.now.command }
    ensures logs { Logs (R.operated rt.now) task.now (F.output errors.old) (F.output errors.new) result }
    ensures does { Does (record { files = R.file_at rt.now; storage = R.storage rt.now; stored = H.found stores.now; edges = S.edges system.now; replies = R.replies rt.now; operated = R.operated rt.now; endings = R.endings rt.now; sights = R.sights rt.now; output_seen = W.seen writer.old; errors_seen = F.seen errors.old }) task.now
        (record { input = I.input reader.old; output = W.output writer.old })
        (record { input = I.input reader.new; output = W.output writer.new })
        (F.output errors.old) (F.output errors.new) result }
{
    let manner = task.manner;
    match &task.command {
        Command::Once(once) => respond(rt, once, reader, writer),
        Command::Report(asked) => report_on(rt, asked, writer),
        Command::Compare(asked) => compare_on(rt, asked, writer),
        Command::Review(asked) => review_on(rt, asked, manner.shown, writer),
        Command::Graph(asked) => graph_on(rt, asked, writer),
        Command::Describe(paths) => describe_files(rt.alloc(), rt, paths.as_slice(), writer),
        Command::Explain(code) => explain_code(rt.alloc(), code, writer),
        Command::Serve(asked) => serve_profile(
            rt,
            system,
            stores,
            asked,
            manner.verbose,
            writer,
            errors,
        ),
        Command::Walk(asked) => walk_on(rt.alloc(), rt, asked, writer),
        Command::Publish(asked) => publish_on(rt, asked, manner.shown, reader, writer),
        Command::Script(asked) => print_script(rt, rt.alloc(), asked, writer),
        Command::Raise(asked) => raise_on(rt, rt.alloc(), asked, manner.shown, writer),
        Command::Dump(asked) => dump_on(rt, rt.alloc(), asked, manner, writer, errors),
        Command::Status(asked) => status_on(rt, rt.alloc(), asked, manner.shown, writer),
        Command::Stop(asked) => stop_on(rt, rt.alloc(), asked, manner.shown, writer),
        Command::History(asked) => print_history(rt, stores, asked, writer),
    }
}

// rule: More on standard error
// How a command prints by its arguments, on such streams.
fn manner_of<W: Watched, F: Watched>(verbose: bool, writer: &W, errors: &F) -> Manner
    ensures { IsManner (W.seen writer.now) (F.seen errors.now) verbose result }
{
    let shown = writer.is_watched();
    let watched = errors.is_watched();
    Manner {
        verbose: verbose || watched,
        shown,
    }
}

// How a run ended, and the task that it had, if the arguments asked for one.
#[derive(Drop)]
struct Ended {
    ending: Ending,
    task: Option<Task>,
}

// How a run ends whose task came to that.
fn ending_of(done: Result<(), Failure>) -> Ending
    ensures { result ≡ ending_of done }
{
    match done {
        Ok(()) => Ending::Replied,
        Err(failure) => Ending::Failed(failure),
    }
}

// Carries out what the arguments ask for.
fn carry_out_task<
    P: Port + Send + Drop,
    S: System<P> + Sync,
    R: Disk + Folders + Clock + Connector + Looks + AllocGlobal + Threads + Sync + Wait,
    H: Stores,
    I: ReadWhole,
    W: WriteWhole + Watched,
    F: WriteWhole + Send + Watched,
>(
    rt: &R,
    system: &S,
    stores: &H,
    invocation: Invocation,
    reader: &mut I,
    writer: &mut W,
    errors: &mut F,
) -> Ended
    requires { IsAskable invocation.command }
    ensures logged { IsLoggedBy (R.operated rt.now) result.task result.ending (F.output errors.old) (F.output errors.new) }
    ensures ends { EndsTask (record { files = R.file_at rt.now; storage = R.storage rt.now; stored = H.found stores.now; edges = S.edges system.now; replies = R.replies rt.now; operated = R.operated rt.now; endings = R.endings rt.now; sights = R.sights rt.now; output_seen = W.seen writer.old; errors_seen = F.seen errors.old }) invocation result.task
        (record { input = I.input reader.old; output = W.output writer.old })
        (record { input = I.input reader.new; output = W.output writer.new })
        (F.output errors.old) (F.output errors.new) result.ending }
{
    let Invocation { command, verbose } = invocation;
    let manner = manner_of(verbose, writer, errors);
    let task = Task { command, manner };
    let done = obey(rt, system, stores, &task, reader, writer, errors);
    Ended {
        ending: ending_of(done),
        task: Some(task),
    }
}

// Carries out what the arguments ask for, if they do.
fn carry_out<
    P: Port + Send + Drop,
    S: System<P> + Sync,
    R: Disk + Folders + Clock + Connector + Looks + AllocGlobal + Threads + Sync + Wait,
    H: Stores,
    I: ReadWhole,
    W: WriteWhole + Watched,
    F: WriteWhole + Send + Watched,
>(
    rt: &R,
    system: &S,
    stores: &H,
    arguments: &[String],
    reader: &mut I,
    writer: &mut W,
    errors: &mut F,
) -> Ended
    ensures logged { IsLoggedBy (R.operated rt.now) result.task result.ending (F.output errors.old) (F.output errors.new) }
    ensures ends { Ends (record { files = R.file_at rt.now; storage = R.storage rt.now; stored = H.found stores.now; edges = S.edges system.now; replies = R.replies rt.now; operated = R.operated rt.now; endings = R.endings rt.now; sights = R.sights rt.now; output_seen = W.seen writer.old; errors_seen = F.seen errors.old }) (map string_bytes arguments.now) result.task
        (record { input = I.input reader.old; output = W.output writer.old })
        (record { input = I.input reader.new; output = W.output writer.new })
        (F.output errors.old) (F.output errors.new) result.ending }
    ensures untouched { IsMistaken result.ending → (reader.new ≡ reader.old) × (writer.new ≡ writer.old) }
{
    match read_arguments(rt.alloc(), arguments) {
        Ok(invocation) => { carry_out_task(rt, system, stores, invocation, reader, writer, errors) }
        Err(error) => Ended {
            ending: end_without_command(error, writer),
            task: None,
        },
    }
}

// Prints the one line of a failure.
fn print_failure<F: WriteWhole>(alloc: Global, failure: &Failure, errors: &mut F)
    ensures { IsPrinted failure.now (F.output errors.old) (F.output errors.new) }
{
    match format!(in alloc; "omaha: {failure}\n") {
        Ok(line) => offer(errors, line.as_bytes()),
        Err(_) => offer(errors, b"omaha: memory\n"),
    }
}

// Prints what there is to say of an ending.
fn report<F: WriteWhole>(alloc: Global, ending: &Ending, errors: &mut F)
    ensures { IsReported ending.now (F.output errors.old) (F.output errors.new) }
{
    match ending {
        Ending::Replied => {}
        Ending::Shown => {}
        Ending::Failed(failure) if failure.is_declined() => {}
        Ending::Failed(failure) => print_failure(alloc, failure, errors),
        Ending::Mistaken(text) => offer(errors, text.as_str().as_bytes()),
    }
}

// Prints the line of what there is to say beyond a failure's line, if there is something and memory for it.
fn print_advice<R: Disk + Looks + AllocGlobal, F: WriteWhole>(
    rt: &R,
    task: &Task,
    failure: &Failure,
    errors: &mut F,
)
    ensures { PrintsAdvice (R.file_at rt.now) (R.sights rt.now) task.now.command failure.now (F.output errors.old) (F.output errors.new) }
{
    let Some(said) = advice_on(rt, &task.command, failure) else {
        return;
    };
    let said = said.as_str();
    match format!(in rt.alloc(); "omaha: {said}\n") {
        Ok(line) => offer(errors, line.as_bytes()),
        Err(_) => {}
    }
}

// Says more of a failure, if the command says more.
fn advise<R: Disk + Looks + AllocGlobal, F: WriteWhole>(rt: &R, ended: &Ended, errors: &mut F)
    ensures { IsAdvised (R.file_at rt.now) (R.sights rt.now) ended.now.task ended.now.ending (F.output errors.old) (F.output errors.new) }
{
    match (&ended.task, &ended.ending) {
        (Some(task), Ending::Failed(failure)) if task.manner.verbose => {
            print_advice(rt, task, failure, errors)
        }
        _ => {}
    }
}

// rule: Status of the program
// rule: Edges of the program
/// Runs the program with the arguments after its name, and returns its exit status. A server's ports, packages and log
/// are those of `system`, and histories those of `stores`.
///
/// Without arguments, or with `once` and its options, it does what `respond` does; with `check`, `certify` or `verify`
/// what `report_on` does, with `review` what `review_on` does, with `graph` what `graph_on` does; with `check` and a
/// folder it compares packages with files, with `describe` it describes files; with `script` it prints a script; with
/// `history` it reads a history; with `serve` it serves until its last session; with `walk` it walks along a server's
/// offers; with `publish`, `raise`, `dump` and `status` it calls an operator's listener, and with `stop` it waits for the end
/// of its server, too.
///
/// It returns 0 if the command did that, or the help or the version was printed; 1 if the command failed, after one
/// line on `errors`, or none if that listener declined; and 2 if the arguments are invalid, after `clap`'s message on
/// `errors`. With `--log -` a server also logs its replies there. With `--verbose`, or if `errors` is a terminal, a
/// server says there what it does, `dump` prints the number of the server's edition, and a failure's line is followed
/// by one with what `advice_on` has to say of it. If `writer` is a terminal, the reply of an operator's listener is
/// printed without control characters.
pub fn run<
    P: Port + Send + Drop,
    S: System<P> + Sync,
    R: Disk + Folders + Clock + Connector + Looks + AllocGlobal + Threads + Sync + Wait,
    H: Stores,
    I: ReadWhole,
    W: WriteWhole + Watched,
    F: WriteWhole + Send + Watched,
>(
    rt: &R,
    system: &S,
    stores: &H,
    arguments: &[String],
    reader: &mut I,
    writer: &mut W,
    errors: &mut F,
) -> u8
    ensures run { Runs (record { files = R.file_at rt.now; storage = R.storage rt.now; stored = H.found stores.now; edges = S.edges system.now; replies = R.replies rt.now; operated = R.operated rt.now; endings = R.endings rt.now; sights = R.sights rt.now; output_seen = W.seen writer.old; errors_seen = F.seen errors.old }) (map string_bytes arguments.now)
        (record { input = I.input reader.old; output = W.output writer.old })
        (record { input = I.input reader.new; output = W.output writer.new })
        (F.output errors.old) (F.output errors.new) result }
    ensures untouched { result ≡ 2 → (reader.new ≡ reader.old) × (writer.new ≡ writer.old) }
{
    let ended = carry_out(rt, system, stores, arguments, reader, writer, errors);
    report(rt.alloc(), &ended.ending, errors);
    advise(rt, &ended, errors);
    ended.ending.status().code()
}
