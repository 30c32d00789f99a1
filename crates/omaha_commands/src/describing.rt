// The command `describe`.

ghost use Rattle.std.specs.Prelude.{Err, IfErr, IfOk, Ok, string_bytes};
ghost use Rattle.omaha_commands.specs.Describing.{IsFailureAt, IsFound, PrintsDescriptions};
ghost use Rattle.streams.specs.Streams.{Known};

use failures::Failure;
use package_files::{DescribeError, Folders, describe_path};
use profiles::print;
use std::alloc::Global;
use streams::WriteWhole;
use values::Text;

// The failure of a file at a path that is not described.
fn failure_at(path: &Text, reason: DescribeError) -> Failure
    ensures { IsFailureAt path.now reason result }
{
    match reason {
        DescribeError::Memory => Failure::Memory,
        reason => match path.clone() {
            Ok(path) => Failure::Undescribed(path, reason),
            Err(_) => Failure::Memory,
        },
    }
}

// rule: Descriptions of paths
// What is found of the files at paths: their descriptions, or the first that is not described.
fn lines_of<R: Folders>(alloc: Global, rt: &R, paths: &[Text]) -> Result<String, Failure>
    ensures ok { IfOk result (λ text. IsFound (R.storage rt.now) paths.now (Ok (string_bytes text))) }
    ensures err { IfErr result (λ failure. IsFound (R.storage rt.now) paths.now (Err failure)) }
{
    let mut lines = String::new(alloc);
    for path in paths {
        match describe_path(alloc, rt, path.as_str()) {
            Ok(text) => lines.push_str(text.as_str())?,
            Err(reason) => return Err(failure_at(path, reason)),
        }
    }
    Ok(lines)
}

// rule: Printed descriptions
/// Prints what a profile says of files, each named by its path.
///
/// Fails with the first file that can't be described, and prints nothing then. If the writer fails, a first part is
/// printed, and not all of it.
pub fn describe_files<R: Folders, W: WriteWhole>(
    alloc: Global,
    rt: &R,
    paths: &[Text],
    writer: &mut W,
) -> Result<(), Failure>
    ensures { (input : Known) → PrintsDescriptions (R.storage rt.now) paths.now
        (record { input = input; output = W.output writer.old })
        (record { input = input; output = W.output writer.new }) result }
{
    match lines_of(alloc, rt, paths) {
        Ok(lines) => print(lines.as_str().as_bytes(), writer),
        Err(failure) => Err(failure),
    }
}
