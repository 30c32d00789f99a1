// The command `explain`.

ghost use Rattle.std.specs.Prelude.{Some};
ghost use Rattle.omaha_commands.specs.Explaining.{Explains, PrintsSome, Says};
ghost use Rattle.streams.specs.Streams.{Known};

use failures::{Failure, explain, list};
use profiles::print;
use std::alloc::Global;
use streams::WriteWhole;
use values::Text;

// Prints the explanation of a code.
fn explain_one<W: WriteWhole>(code: &Text, writer: &mut W) -> Result<(), Failure>
    ensures { (input : Known) → Says code.now
        (record { input = input; output = W.output writer.old })
        (record { input = input; output = W.output writer.new }) result }
{
    match explain(code.as_str()) {
        Some(text) => print(text.as_bytes(), writer),
        None => Err(Failure::Code(code.clone()?)),
    }
}

// The list of all codes.
fn lines_of(alloc: Global) -> Result<String, Failure> {
    Ok(list(alloc)?)
}

// Prints the list of all codes.
fn print_list<W: WriteWhole>(alloc: Global, writer: &mut W) -> Result<(), Failure>
    ensures { (input : Known) → PrintsSome
        (record { input = input; output = W.output writer.old })
        (record { input = input; output = W.output writer.new }) result }
{
    match lines_of(alloc) {
        Ok(lines) => print(lines.as_str().as_bytes(), writer),
        Err(failure) => Err(failure),
    }
}

// rule: Report on a code
/// Explains a code that the program prints, or lists them all.
///
/// Fails with `Code` and prints nothing if the program prints no such code. If the writer fails, a first part is
/// printed, and not all of it.
pub fn explain_code<W: WriteWhole>(
    alloc: Global,
    code: &Option<Text>,
    writer: &mut W,
) -> Result<(), Failure>
    ensures { (input : Known) → Explains code.now
        (record { input = input; output = W.output writer.old })
        (record { input = input; output = W.output writer.new }) result }
{
    match code {
        Some(code) => explain_one(code, writer),
        None => print_list(alloc, writer),
    }
}
