// The commands that report on a profile: `check`, `certify` and `verify`.

ghost use Rattle.std.specs.Prelude.{IfErr, IfOk, Ok, Err};
ghost use Rattle.editions.specs.Editions.{content_of};
ghost use Rattle.omaha_commands.specs.Reports.{AreWarnings, Finds, IsReported, IsSummary, IsWarned, Reports, SummarizesAfter, SummarizesBy};
ghost use Rattle.omaha_arguments.specs.declared.command.Question.TheVariants.{Verify};
ghost use Rattle.streams.specs.Streams.{Known};

use crate::applying::apply;
use crate::reports::{certify, summary, verify};
use crate::script_file::read_script_file;
use catalogue::Batch;
use editions::Edition;
use failures::Failure;
use omaha_arguments::{Question, Report};
use profiles::{MAX_PROFILE, open_profile, print};
use review_reports::write_warnings;
use reviews::review_catalogue;
use service_desks::Service;
use std::alloc::{AllocError, Global};
use std::thread::Threads;
use streams::{Disk, ReadFailure, WriteWhole};
use values::Text;

// That the certificate in a file is valid.
fn verify_file<R: Disk + AllocGlobal + Threads + Sync>(
    rt: &R,
    service: &Service,
    path: &Text,
) -> Result<Vec<u8>, Failure>
    ensures ok { IfOk result (λ text. Finds (R.file_at rt.now) service.now (Verify path.now) (Ok text.items)) }
    ensures err { IfErr result (λ failure. Finds (R.file_at rt.now) service.now (Verify path.now) (Err failure)) }
{
    let bytes = match rt.read_file(rt.alloc(), path.as_str(), MAX_PROFILE) {
        Ok(bytes) => bytes,
        Err(ReadFailure::Memory) => return Err(Failure::Memory),
        Err(_) => return Err(Failure::File(path.clone()?)),
    };
    verify(rt, rt.alloc(), &service.edition, bytes.as_slice())?;
    Ok(Vec::from_slice(rt.alloc(), b"certified\n")?)
}

// A line for each target that no client can reach.
fn warnings_of(alloc: Global, edition: &Edition) -> Result<Vec<u8>, AllocError>
    ensures { IfOk result (λ text. AreWarnings (content_of edition.now) text.items) }
{
    let reviews = review_catalogue(alloc, edition.catalogue(), edition.tables())?;
    let text = write_warnings(alloc, edition.catalogue(), reviews.as_slice())?;
    Ok(text)
}

// rule: Check with warnings
// The summary of an edition, and a line for each target that no client can reach.
fn warned_summary(alloc: Global, edition: &Edition) -> Result<Vec<u8>, AllocError>
    ensures { IfOk result (λ text. IsWarned edition.now text.items) }
{
    let mut text = summary(alloc, edition)?.into_bytes();
    let warnings = warnings_of(alloc, edition)?;
    text.extend_from_slice(warnings.as_slice())?;
    Ok(text)
}

// The summary of what a script makes of an edition.
fn summary_by(alloc: Global, edition: &Edition, script: (u64, Batch)) -> Result<Vec<u8>, Failure>
    ensures ok { IfOk result (λ text. SummarizesBy edition.now (Ok script) (Ok text.items)) }
    ensures err { IfErr result (λ failure. SummarizesBy edition.now (Ok script) (Err failure)) }
{
    match apply(edition, edition.number(), script) {
        Ok(next) => Ok(summary(alloc, &next)?.into_bytes()),
        Err(failure) => Err(failure),
    }
}

// rule: Check with a script
// The summary of what the script of a file makes of an edition.
fn summary_after<R: Disk + AllocGlobal>(
    rt: &R,
    edition: &Edition,
    path: &Text,
) -> Result<Vec<u8>, Failure>
    ensures ok { IfOk result (λ text. SummarizesAfter (R.file_at rt.now) edition.now path.now (Ok text.items)) }
    ensures err { IfErr result (λ failure. SummarizesAfter (R.file_at rt.now) edition.now path.now (Err failure)) }
{
    match read_script_file(rt, path) {
        Ok(script) => summary_by(rt.alloc(), edition, script),
        Err(failure) => Err(failure),
    }
}

// What is found for a question about a service's edition.
fn find<R: Disk + AllocGlobal + Threads + Sync>(
    rt: &R,
    service: &Service,
    question: &Question,
) -> Result<Vec<u8>, Failure>
    ensures ok { IfOk result (λ text. Finds (R.file_at rt.now) service.now question.now (Ok text.items)) }
    ensures err { IfErr result (λ failure. Finds (R.file_at rt.now) service.now question.now (Err failure)) }
{
    match question {
        Question::Check => Ok(summary(rt.alloc(), &service.edition)?.into_bytes()),
        Question::Warn => Ok(warned_summary(rt.alloc(), &service.edition)?),
        Question::Script(path) => summary_after(rt, &service.edition, path),
        Question::Certify(names) => Ok(certify(rt.alloc(), &service.edition, names)?),
        Question::Verify(path) => verify_file(rt, service, path),
    }
}

// What a report finds.
fn report_bytes<R: Disk + AllocGlobal + Threads + Sync>(
    rt: &R,
    report: &Report,
) -> Result<Vec<u8>, Failure>
    ensures ok { IfOk result (λ text. IsReported (R.file_at rt.now) report.now (Ok text.items)) }
    ensures err { IfErr result (λ failure. IsReported (R.file_at rt.now) report.now (Err failure)) }
{
    match open_profile(rt, &report.profile, report.workers) {
        Ok(service) => find(rt, &service, &report.question),
        Err(failure) => Err(failure),
    }
}

// rule: Report on a profile
/// Reports on a profile, and writes what it finds.
///
/// Fails, in this order, with the profile's file, its first fault, its first rejected edit, and what the
/// question finds; each time nothing is written. If the writer fails, a first part of the report is written,
/// and not all of it.
pub fn report_on<R: Disk + AllocGlobal + Threads + Sync, W: WriteWhole>(
    rt: &R,
    asked: &Report,
    writer: &mut W,
) -> Result<(), Failure>
    ensures { (input : Known) → Reports (R.file_at rt.now) asked.now
        (record { input = input; output = W.output writer.old })
        (record { input = input; output = W.output writer.new }) result }
{
    match report_bytes(rt, asked) {
        Ok(text) => print(text.as_slice(), writer),
        Err(failure) => Err(failure),
    }
}
