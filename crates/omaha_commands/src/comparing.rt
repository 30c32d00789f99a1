// The command `check` with a folder of packages.

ghost use Rattle.std.specs.Prelude.{◌≡◌, IfOk, IfErr, string_bytes};
ghost use Rattle.editions.specs.Editions.{content_of};
ghost use Rattle.omaha_commands.specs.Comparing.{Compares, IsCompared, IsReportedOn, report_of};
ghost use Rattle.failures.specs.declared.failure.Failure.TheVariants.{Memory};
ghost use Rattle.package_files.specs.Findings.{AreFindings};
ghost use Rattle.catalogue.specs.Lookups.{packages_of};
ghost use Rattle.streams.specs.Streams.{Known};

use crate::reports::summary;
use failures::Failure;
use omaha_arguments::Comparison;
use package_files::{Finding, Folders, findings_string};
use profiles::open_profile;
use service_desks::Service;
use std::alloc::{AllocError, Global};
use std::thread::Threads;
use streams::{Disk, WriteWhole};
use values::Items;

// What is found of a service's packages in a folder.
fn findings_in<R: Folders>(
    alloc: Global,
    rt: &R,
    folder: &str,
    service: &Service,
) -> Result<Items<Finding>, AllocError>
    ensures { IfOk result (λ findings. AreFindings ((R.storage rt.now).opens folder.now)
        ((R.storage rt.now).reads folder.now) (packages_of (content_of service.now.edition)) findings) }
{
    rt.compare_in(alloc, folder, service.edition.catalogue().apps())
}

// What is printed of a service's packages.
fn report_of(alloc: Global, service: &Service, findings: &[Finding]) -> Result<String, AllocError>
    ensures { IfOk result (λ text. string_bytes text ≡ report_of service.now findings.now) }
{
    if findings.is_empty() {
        summary(alloc, &service.edition)
    } else {
        findings_string(alloc, findings)
    }
}

// Prints a report on packages, and ends by what was found.
fn print_report<W: WriteWhole>(
    text: &str,
    service: &Service,
    findings: &[Finding],
    writer: &mut W,
) -> Result<(), Failure>
    requires { text.now ≡ report_of service.now findings.now }
    ensures { IsReportedOn service.now findings.now (W.output writer.old) (W.output writer.new) result }
{
    match writer.write_whole(text.as_bytes()) {
        Err(_) => Err(Failure::Write),
        Ok(()) => {
            if findings.is_empty() {
                Ok(())
            } else {
                Err(Failure::Packages(findings.len() as u64))
            }
        }
    }
}

// Compares a service's packages with the files of a folder, and prints what is found.
fn compare_service<R: Folders, W: WriteWhole>(
    alloc: Global,
    rt: &R,
    folder: &str,
    service: &Service,
    writer: &mut W,
) -> Result<(), Failure>
    ensures { IsCompared (R.storage rt.now) folder.now service.now (W.output writer.old) (W.output writer.new) result }
{
    let Ok(findings) = findings_in(alloc, rt, folder, service) else {
        return Err(Failure::Memory);
    };
    let Ok(text) = report_of(alloc, service, findings.as_slice()) else {
        return Err(Failure::Memory);
    };
    print_report(text.as_str(), service, findings.as_slice(), writer)
}

// rule: Report on packages
/// Compares the packages of a profile with the files of a folder.
///
/// Prints what `check` prints without a folder if all agree. Otherwise prints a line for each that differs, and fails
/// with how many there are. Fails, in this order, with the profile's file, its first fault, its first rejected edit,
/// and the writer.
pub fn compare_on<R: Disk + Folders + AllocGlobal + Threads + Sync, W: WriteWhole>(
    rt: &R,
    asked: &Comparison,
    writer: &mut W,
) -> Result<(), Failure>
    ensures { (input : Known) → Compares (R.file_at rt.now) (R.storage rt.now) asked.now
        (record { input = input; output = W.output writer.old })
        (record { input = input; output = W.output writer.new }) result }
{
    match open_profile(rt, &asked.profile, asked.workers) {
        Ok(service) => compare_service(rt.alloc(), rt, asked.packages.as_str(), &service, writer),
        Err(failure) => Err(failure),
    }
}
