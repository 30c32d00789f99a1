// The commands of an operator: `publish`, `raise`, `dump` and `status`.

ghost use Rattle.std.specs.Prelude.{◌≡◌, IfErr, IfOk, Ok, Err, false};
ghost use Rattle.omaha_commands.specs.Asking.{IsNoted, Notes};
ghost use Rattle.omaha_commands.specs.Judging.{Publishes};
ghost use Rattle.omaha_commands.specs.Operating.{Calls, Dumps, IsRead, IsScript, IsUnexpected, PostsBytes, PrintsBody, PrintsBy, PrintsBytes, PrintsDeclined, PrintsReply, PrintsStatus, Raises, is_input, max_line};
ghost use Rattle.omaha_commands.specs.Posting.{Posts, PostsStocked};

use crate::asking::{dump_limits, edition_line, line_limits};
use crate::fetching::ask;
use crate::forms::{Meaning, meaning_of};
use crate::judging::check_on;
use crate::script_file::MAX_SCRIPT;
use crate::shown_reply::{encoded_reply, is_plain};
use crate::stocking::stock_bytes;
use failures::Failure;
use omaha_arguments::{Publication, Raise, ServerAsked};
use package_files::Folders;
use std::alloc::Global;
use std::thread::Threads;
use streams::{Disk, ReadFailure, ReadWhole, WriteWhole, offer};
use update_client::{Connector, Limits, Reply};
use values::Text;

/// How a command prints.
#[derive(Clone, Copy)]
pub struct Manner {
    /// Whether it says more on the standard error.
    pub verbose: bool,
    /// Whether a server's reply is printed without control characters, as a terminal gets it.
    pub shown: bool,
}

// Reads the file of a script.
fn read_file<R: Disk>(rt: &R, alloc: Global, path: &Text) -> Result<Vec<u8>, Failure>
    ensures ok { IfOk result (λ bytes. IsRead (R.file_at rt.now) path.now (Ok bytes.items)) }
    ensures err { IfErr result (λ failure. IsRead (R.file_at rt.now) path.now (Err failure)) }
{
    match rt.read_file(alloc, path.as_str(), MAX_SCRIPT) {
        Ok(bytes) => Ok(bytes),
        Err(ReadFailure::Memory) => Err(Failure::Memory),
        Err(_) => Err(Failure::File(path.clone()?)),
    }
}

/// Whether a path means the standard input.
pub(crate) fn is_input(path: &str) -> bool
    ensures { result ≡ is_input path.now }
{
    path == "-"
}

// rule: Script to publish
// Reads a script: the file at a path, or the reader if the path is `-`.
fn read_script<R: Disk, I: ReadWhole>(
    rt: &R,
    alloc: Global,
    path: &Text,
    reader: &mut I,
) -> Result<Vec<u8>, Failure>
    ensures ok { IfOk result (λ bytes. IsScript (R.file_at rt.now) path.now (I.input reader.old) (I.input reader.new) (Ok bytes.items)) }
    ensures err { IfErr result (λ failure. IsScript (R.file_at rt.now) path.now (I.input reader.old) (I.input reader.new) (Err failure)) }
{
    if !is_input(path.as_str()) {
        return read_file(rt, alloc, path);
    }
    match reader.read_whole(alloc, MAX_SCRIPT) {
        Ok(bytes) => Ok(bytes),
        Err(failure) => Err(Failure::from(failure)),
    }
}

// rule: Reply on a terminal
/// Prints a reply's body, on a terminal without control characters.
pub(crate) fn print_body<W: WriteWhole>(
    alloc: Global,
    shown: bool,
    body: &[u8],
    writer: &mut W,
) -> Result<(), Failure>
    ensures { PrintsBody shown body.now (W.output writer.old) (W.output writer.new) result }
{
    if !shown || is_plain(body) {
        return print_bytes(body, writer);
    }
    match encoded_reply(alloc, body) {
        Ok(text) => print_bytes(text.as_bytes(), writer),
        Err(_) => Err(Failure::Memory),
    }
}

// Prints bytes.
fn print_bytes<W: WriteWhole>(bytes: &[u8], writer: &mut W) -> Result<(), Failure>
    ensures { PrintsBytes bytes.now (W.output writer.old) (W.output writer.new) result }
{
    match writer.write_whole(bytes) {
        Ok(()) => Ok(()),
        Err(_) => Err(Failure::Write),
    }
}

// The failure of a listener that replies as no operator's listener does.
pub(crate) fn unexpected(to: &Text, status: u16) -> Failure
    ensures { IsUnexpected to.now status result }
{
    match to.clone() {
        Ok(to) => Failure::Unexpected(to, status),
        Err(_) => Failure::Memory,
    }
}

// Prints a reply that says why there is no other, and fails with it.
fn print_declined<W: WriteWhole>(
    alloc: Global,
    shown: bool,
    reply: Reply,
    writer: &mut W,
) -> Result<(), Failure>
    ensures { PrintsDeclined shown reply (W.output writer.old) (W.output writer.new) result }
{
    match print_body(alloc, shown, reply.body.as_slice(), writer) {
        Ok(()) => Err(Failure::Declined(reply)),
        Err(failure) => Err(failure),
    }
}

// Prints a reply by what it is, and succeeds if the listener did what it was asked for.
fn print_by<W: WriteWhole>(
    alloc: Global,
    shown: bool,
    meaning: Meaning,
    to: &Text,
    reply: Reply,
    writer: &mut W,
) -> Result<(), Failure>
    ensures { PrintsBy meaning shown to.now reply (W.output writer.old) (W.output writer.new) result }
{
    match meaning {
        Meaning::Done => print_body(alloc, shown, reply.body.as_slice(), writer),
        Meaning::Declined => print_declined(alloc, shown, reply, writer),
        Meaning::Unexpected => Err(unexpected(to, reply.status)),
    }
}

// Prints the reply to a body, unless no operator's listener replies so.
fn print_reply<W: WriteWhole>(
    alloc: Global,
    shown: bool,
    to: &Text,
    body: &[u8],
    reply: Reply,
    writer: &mut W,
) -> Result<(), Failure>
    ensures { PrintsReply shown to.now body.now reply (W.output writer.old) (W.output writer.new) result }
{
    match meaning_of(alloc, body, &reply) {
        Ok(meaning) => print_by(alloc, shown, meaning, to, reply, writer),
        Err(_) => Err(Failure::Memory),
    }
}

// rule: Call of an operator's listener
// Posts a body to an operator's listener, and prints the reply.
fn call<R: Connector, W: WriteWhole>(
    rt: &R,
    alloc: Global,
    shown: bool,
    to: &Text,
    limits: Limits,
    body: &[u8],
    writer: &mut W,
) -> Result<(), Failure>
    ensures { Calls (R.operated rt.now) shown limits.reply to.now body.now (W.output writer.old) (W.output writer.new) result }
{
    match ask(rt, alloc, to, limits, body) {
        Ok(reply) => print_reply(alloc, shown, to, body, reply, writer),
        Err(failure) => Err(failure),
    }
}

/// The same if the reply is a line, and the exchange may take so many seconds.
pub(crate) fn call_for_line<R: Connector, W: WriteWhole>(
    rt: &R,
    alloc: Global,
    shown: bool,
    to: &Text,
    seconds: u64,
    body: &[u8],
    writer: &mut W,
) -> Result<(), Failure>
    ensures { Calls (R.operated rt.now) shown max_line to.now body.now (W.output writer.old) (W.output writer.new) result }
{
    call(rt, alloc, shown, to, line_limits(seconds), body, writer)
}

// Posts the bytes of a script to an operator's listener, as they are, and prints the reply.
fn post<R: Connector, W: WriteWhole>(
    rt: &R,
    alloc: Global,
    asked: &Publication,
    shown: bool,
    script: &[u8],
    writer: &mut W,
) -> Result<(), Failure>
    ensures { PostsBytes (R.operated rt.now) shown asked.now.to script.now (W.output writer.old) (W.output writer.new) result }
{
    call_for_line(rt, alloc, shown, &asked.to, asked.timeout, script, writer)
}

// Compares the packages of a script with files, if a folder is named, and posts it if they agree.
fn post_stocked<R: Connector + Folders, W: WriteWhole>(
    rt: &R,
    alloc: Global,
    asked: &Publication,
    shown: bool,
    script: &[u8],
    writer: &mut W,
) -> Result<(), Failure>
    ensures { PostsStocked (R.storage rt.now) (R.operated rt.now) shown asked.now script.now (W.output writer.old) (W.output writer.new) result }
{
    match stock_bytes(rt, alloc, &asked.packages, script, writer) {
        Ok(()) => post(rt, alloc, asked, shown, script, writer),
        Err(failure) => Err(failure),
    }
}

// Posts a script to an operator's listener, as it is, and prints the reply.
fn post_script<R: Disk + Connector + Folders, I: ReadWhole, W: WriteWhole>(
    rt: &R,
    alloc: Global,
    asked: &Publication,
    shown: bool,
    reader: &mut I,
    writer: &mut W,
) -> Result<(), Failure>
    ensures { Posts (R.file_at rt.now) (R.storage rt.now) (R.operated rt.now) shown asked.now
        (record { input = I.input reader.old; output = W.output writer.old })
        (record { input = I.input reader.new; output = W.output writer.new }) result }
{
    match read_script(rt, alloc, &asked.script, reader) {
        Ok(script) => post_stocked(rt, alloc, asked, shown, script.as_slice(), writer),
        Err(failure) => Err(failure),
    }
}

/// Posts a script to an operator's listener, as it is, and prints the reply; or only checks it, if that is asked for. The
/// script is a file, or what the reader has if its path is `-`.
///
/// Fails with the file or the reader, which may have 262144 bytes, then with `Net` if the listener can't be reached or
/// sends no whole reply, and with `Unexpected` if no operator's listener replies so; each time nothing is written. Fails
/// with `Declined` after a reply that says why the script isn't published, and with the writer. If `shown` the reply is
/// printed without control characters.
/// A check fails with the script's first fault after the file, with `Net` also if the listener names no edition, with
/// `Stale` if the script is written for another one, and with its first rejected edit.
///
/// If a folder of packages is named, those that the script adds are compared with its files first. Then it fails with the
/// script's first fault, or prints a line for each package that differs and fails with `Packages`; nothing is sent.
pub fn publish_on<
    R: Disk + Folders + Connector + AllocGlobal + Threads + Sync,
    I: ReadWhole,
    W: WriteWhole,
>(rt: &R, asked: &Publication, shown: bool, reader: &mut I, writer: &mut W) -> Result<(), Failure>
    ensures { Publishes (R.file_at rt.now) (R.storage rt.now) (R.operated rt.now) shown asked.now
        (record { input = I.input reader.old; output = W.output writer.old })
        (record { input = I.input reader.new; output = W.output writer.new }) result }
{
    if asked.check {
        check_on(rt, asked, reader, writer)
    } else {
        post_script(rt, rt.alloc(), asked, shown, reader, writer)
    }
}

/// Posts the raise of a mirror's budget to an operator's listener, with the name and the budget as they were given, and
/// prints the reply.
///
/// Fails as `publish_on` does without a file.
pub fn raise_on<R: Connector, W: WriteWhole>(
    rt: &R,
    alloc: Global,
    asked: &Raise,
    shown: bool,
    writer: &mut W,
) -> Result<(), Failure>
    ensures { Raises (R.operated rt.now) shown asked.now (W.output writer.old) (W.output writer.new) result }
{
    let (name, budget) = (asked.name.as_str(), asked.budget.as_str());
    match format!(in alloc; "raise {name} {budget}") {
        Ok(body) => {
            let bytes = body.as_str().as_bytes();
            call_for_line(rt, alloc, shown, &asked.to, asked.timeout, bytes, writer)
        }
        Err(_) => Err(Failure::Memory),
    }
}

/// Prints the status of the server of an operator's listener: its edition, and what its mirrors granted.
///
/// Fails as `publish_on` does without a file.
pub fn status_on<R: Connector, W: WriteWhole>(
    rt: &R,
    alloc: Global,
    asked: &ServerAsked,
    shown: bool,
    writer: &mut W,
) -> Result<(), Failure>
    ensures { PrintsStatus (R.operated rt.now) shown asked.now.to (W.output writer.old) (W.output writer.new) result }
{
    call_for_line(
        rt,
        alloc,
        shown,
        &asked.to,
        asked.timeout,
        b"status",
        writer,
    )
}

// Prints the profile that an operator's listener dumps.
fn dump<R: Connector, W: WriteWhole>(
    rt: &R,
    alloc: Global,
    asked: &ServerAsked,
    shown: bool,
    writer: &mut W,
) -> Result<(), Failure>
    ensures { Dumps (R.operated rt.now) shown asked.now.to (W.output writer.old) (W.output writer.new) result }
{
    call(
        rt,
        alloc,
        shown,
        &asked.to,
        dump_limits(asked.timeout),
        b"dump",
        writer,
    )
}

// rule: Verbose dump
// Prints the profile that an operator's listener dumps, and then the line of the edition that the server had before.
fn dump_verbosely<R: Connector, W: WriteWhole, E: WriteWhole>(
    rt: &R,
    alloc: Global,
    asked: &ServerAsked,
    shown: bool,
    writer: &mut W,
    errors: &mut E,
) -> Result<(), Failure>
    ensures dumps { Dumps (R.operated rt.now) shown asked.now.to (W.output writer.old) (W.output writer.new) result }
    ensures noted { IsNoted (R.operated rt.now) asked.now.to (E.output errors.old) (E.output errors.new) result }
{
    match edition_line(rt, alloc, &asked.to, asked.timeout) {
        Ok(line) => match dump(rt, alloc, asked, shown, writer) {
            Ok(()) => {
                offer(errors, line.as_bytes());
                Ok(())
            }
            Err(failure) => Err(failure),
        },
        Err(failure) => Err(failure),
    }
}

/// Prints the profile that an operator's listener dumps. If it is asked for, the number of the server's edition, which is
/// asked before, is printed on `errors` after it.
///
/// Fails as `publish_on` does without a file, and with `Net` if that number is asked for and the listener names none. A
/// reply that is no profile is unexpected. After a failure nothing is printed on `errors`.
pub fn dump_on<R: Connector, W: WriteWhole, E: WriteWhole>(
    rt: &R,
    alloc: Global,
    asked: &ServerAsked,
    manner: Manner,
    writer: &mut W,
    errors: &mut E,
) -> Result<(), Failure>
    ensures dumps { Dumps (R.operated rt.now) manner.shown asked.now.to (W.output writer.old) (W.output writer.new) result }
    ensures noted { Notes manner.verbose (R.operated rt.now) asked.now.to (E.output errors.old) (E.output errors.new) result }
    ensures silent { manner.verbose ≡ false → errors.new ≡ errors.old }
{
    if manner.verbose {
        dump_verbosely(rt, alloc, asked, manner.shown, writer, errors)
    } else {
        dump(rt, alloc, asked, manner.shown, writer)
    }
}
