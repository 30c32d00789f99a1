// The packages that a script adds, compared with files before it is posted.

ghost use Rattle.omaha_commands.specs.Stocking.{EndsStocking, Stocks, StocksBytes, StocksIn};

use crate::script_file::script_in;
use catalogue::Edit;
use failures::Failure;
use package_files::{Finding, Folders, findings_string};
use std::alloc::Global;
use streams::WriteWhole;
use values::Text;

// Prints what is found of packages, and fails with how many differ.
fn print_findings<W: WriteWhole>(
    alloc: Global,
    findings: &[Finding],
    writer: &mut W,
) -> Result<(), Failure>
    ensures { EndsStocking findings.now (W.output writer.old) (W.output writer.new) result }
{
    if findings.is_empty() {
        return Ok(());
    }
    let Ok(text) = findings_string(alloc, findings) else {
        return Err(Failure::Memory);
    };
    match writer.write_whole(text.as_bytes()) {
        Ok(()) => Err(Failure::Packages(findings.len() as u64)),
        Err(_) => Err(Failure::Write),
    }
}

// Compares the packages that a script adds with the files of a folder.
fn stock_in<R: Folders, W: WriteWhole>(
    rt: &R,
    alloc: Global,
    folder: &str,
    edits: &[Edit],
    writer: &mut W,
) -> Result<(), Failure>
    ensures { StocksIn (R.storage rt.now) folder.now edits.now (W.output writer.old) (W.output writer.new) result }
{
    match rt.compare_added_in(alloc, folder, edits) {
        Ok(findings) => print_findings(alloc, findings.as_slice(), writer),
        Err(_) => Err(Failure::Memory),
    }
}

// rule: Packages of a posted script
/// Compares the packages that a script adds with the files of a folder, if one is named. If some differ it prints a line for
/// each, and fails with how many there are.
pub(crate) fn stock<R: Folders, W: WriteWhole>(
    rt: &R,
    alloc: Global,
    folder: &Option<Text>,
    edits: &[Edit],
    writer: &mut W,
) -> Result<(), Failure>
    ensures { Stocks (R.storage rt.now) folder.now edits.now (W.output writer.old) (W.output writer.new) result }
{
    match folder {
        Some(folder) => stock_in(rt, alloc, folder.as_str(), edits, writer),
        None => Ok(()),
    }
}

// rule: Packages of a posted script
/// The same of a script's bytes, which are read only if a folder is named; fails with the script's first fault before.
pub(crate) fn stock_bytes<R: Folders, W: WriteWhole>(
    rt: &R,
    alloc: Global,
    folder: &Option<Text>,
    script: &[u8],
    writer: &mut W,
) -> Result<(), Failure>
    ensures { StocksBytes (R.storage rt.now) folder.now script.now (W.output writer.old) (W.output writer.new) result }
{
    let Some(folder) = folder else {
        return Ok(());
    };
    match script_in(alloc, script) {
        Ok(script) => stock_in(rt, alloc, folder.as_str(), script.1.edits(), writer),
        Err(failure) => Err(failure),
    }
}
