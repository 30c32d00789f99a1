// The command `publish`, if it only checks a script.

ghost use Rattle.std.specs.Prelude.{◌≡◌, Err, IfErr, IfOk, Ok, string_bytes};
ghost use Rattle.omaha_commands.specs.Judging.{Checks, IsPublished, IsScriptBy, IsScriptIn, Judges, JudgesBy, JudgesFor, JudgesStocked, PrintsJudgement, PrintsValid, valid_line};
ghost use Rattle.omaha_commands.specs.Operating.{is_input};
ghost use Rattle.streams.specs.Streams.{Known};

use crate::applying::apply;
use crate::asking::{dump_limits, edition_at, unanswered};
use crate::fetching::ask;
use crate::operating::is_input;
use crate::script_file::{MAX_SCRIPT, read_script_file, script_in};
use crate::stocking::stock;
use catalogue::Batch;
use editions::Edition;
use failures::Failure;
use omaha_arguments::Publication;
use package_files::Folders;
use profiles::{print, read_service};
use service_desks::Service;
use std::alloc::{AllocError, Global};
use std::thread::Threads;
use streams::{Disk, ReadWhole, WriteWhole};
use update_client::Connector;
use values::Text;

// The service of what a server has published.
fn published<R: Connector + Threads + Sync>(
    rt: &R,
    alloc: Global,
    to: &Text,
    seconds: u64,
) -> Result<Service, Failure>
    ensures { IsPublished (R.operated rt.now) to.now result }
{
    match ask(rt, alloc, to, dump_limits(seconds), b"dump") {
        Ok(reply) if reply.status == 200 => read_service(rt, alloc, reply.body.as_slice(), 1),
        Ok(_) => Err(unanswered(to)),
        Err(failure) => Err(failure),
    }
}

// The number of the edition that a script is valid for.
fn judge_by(edition: &Edition, number: u64, script: (u64, Batch)) -> Result<u64, Failure>
    ensures { JudgesBy edition.now number script result }
{
    match apply(edition, number, script) {
        Ok(_) => Ok(number),
        Err(failure) => Err(failure),
    }
}

// The same by the dump of a server.
fn judge_for<R: Connector + Threads + Sync>(
    rt: &R,
    alloc: Global,
    asked: &Publication,
    number: u64,
    script: (u64, Batch),
) -> Result<u64, Failure>
    ensures { JudgesFor (R.operated rt.now) asked.now.to number script result }
{
    match published(rt, alloc, &asked.to, asked.timeout) {
        Ok(service) => judge_by(&service.edition, number, script),
        Err(failure) => Err(failure),
    }
}

// rule: Script checked by a server
// The number of a server's edition, if a script is valid for it.
fn judge<R: Connector + Threads + Sync>(
    rt: &R,
    alloc: Global,
    asked: &Publication,
    script: (u64, Batch),
) -> Result<u64, Failure>
    ensures { Judges (R.operated rt.now) asked.now.to script result }
{
    match edition_at(rt, alloc, &asked.to, asked.timeout) {
        Ok(number) => judge_for(rt, alloc, asked, number, script),
        Err(failure) => Err(failure),
    }
}

// Reads the script of the standard input.
fn read_input<I: ReadWhole>(alloc: Global, reader: &mut I) -> Result<(u64, Batch), Failure>
    ensures ok { IfOk result (λ script. IsScriptIn (I.input reader.old) (I.input reader.new) (Ok script)) }
    ensures err { IfErr result (λ failure. IsScriptIn (I.input reader.old) (I.input reader.new) (Err failure)) }
{
    match reader.read_whole(alloc, MAX_SCRIPT) {
        Ok(script) => script_in(alloc, script.as_slice()),
        Err(failure) => Err(Failure::from(failure)),
    }
}

// Reads the script at a path, or that of the reader if the path is `-`.
fn read_checked<R: Disk + AllocGlobal, I: ReadWhole>(
    rt: &R,
    path: &Text,
    reader: &mut I,
) -> Result<(u64, Batch), Failure>
    ensures ok { IfOk result (λ script. IsScriptBy (is_input path.now) (R.file_at rt.now) path.now (I.input reader.old) (I.input reader.new) (Ok script)) }
    ensures err { IfErr result (λ failure. IsScriptBy (is_input path.now) (R.file_at rt.now) path.now (I.input reader.old) (I.input reader.new) (Err failure)) }
{
    if is_input(path.as_str()) {
        read_input(rt.alloc(), reader)
    } else {
        read_script_file(rt, path)
    }
}

// What is printed of a valid script.
fn valid_line(alloc: Global, number: u64) -> Result<String, AllocError>
    ensures { IfOk result (λ line. string_bytes line ≡ valid_line number) }
{
    format!(in alloc; "valid for edition {number}\n")
}

// Prints which edition a script is valid for.
fn print_valid<W: WriteWhole>(alloc: Global, number: u64, writer: &mut W) -> Result<(), Failure>
    ensures { (input : Known) → PrintsValid number
        (record { input = input; output = W.output writer.old })
        (record { input = input; output = W.output writer.new }) result }
{
    match valid_line(alloc, number) {
        Ok(line) => print(line.as_bytes(), writer),
        Err(_) => Err(Failure::Memory),
    }
}

// Judges a script by what a server has published, and prints which edition it is valid for.
fn print_judgement<R: Connector + AllocGlobal + Threads + Sync, W: WriteWhole>(
    rt: &R,
    asked: &Publication,
    script: (u64, Batch),
    writer: &mut W,
) -> Result<(), Failure>
    ensures { (input : Known) → PrintsJudgement (R.operated rt.now) asked.now.to script
        (record { input = input; output = W.output writer.old })
        (record { input = input; output = W.output writer.new }) result }
{
    match judge(rt, rt.alloc(), asked, script) {
        Ok(number) => print_valid(rt.alloc(), number, writer),
        Err(failure) => Err(failure),
    }
}

// Compares the packages of a script with files, if a folder is named, and judges it if they agree.
fn judge_stocked<R: Connector + Folders + AllocGlobal + Threads + Sync, W: WriteWhole>(
    rt: &R,
    asked: &Publication,
    script: (u64, Batch),
    writer: &mut W,
) -> Result<(), Failure>
    ensures { (input : Known) → JudgesStocked (R.storage rt.now) (R.operated rt.now) asked.now script
        (record { input = input; output = W.output writer.old })
        (record { input = input; output = W.output writer.new }) result }
{
    match stock(rt, rt.alloc(), &asked.packages, script.1.edits(), writer) {
        Ok(()) => print_judgement(rt, asked, script, writer),
        Err(failure) => Err(failure),
    }
}

/// Checks a script against what a server has published, and prints the number of the edition that it is valid for.
/// Nothing is published.
///
/// Fails, in this order, with the script's file or the reader, and its first fault; with the packages that it adds, if a
/// folder is named and some differ; with `Net` if the operator's listener can't be reached or names no edition; with
/// `Stale` if the script is written for another edition; with its first rejected edit; and with the writer.
pub(crate) fn check_on<
    R: Disk + Folders + Connector + AllocGlobal + Threads + Sync,
    I: ReadWhole,
    W: WriteWhole,
>(rt: &R, asked: &Publication, reader: &mut I, writer: &mut W) -> Result<(), Failure>
    ensures { Checks (R.file_at rt.now) (R.storage rt.now) (R.operated rt.now) asked.now
        (record { input = I.input reader.old; output = W.output writer.old })
        (record { input = I.input reader.new; output = W.output writer.new }) result }
{
    match read_checked(rt, &asked.script, reader) {
        Ok(script) => judge_stocked(rt, asked, script, writer),
        Err(failure) => Err(failure),
    }
}
