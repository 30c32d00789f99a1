// What a command prints.

ghost use Rattle.std.specs.Prelude.{Ok};
ghost use Rattle.profiles.specs.Printing.{Prints};
ghost use Rattle.streams.specs.Streams.{Known};

use failures::Failure;
use streams::WriteWhole;

/// Prints a string. If the writer fails, a first part of it is printed, and not all of it.
pub fn print<W: WriteWhole>(text: &[u8], writer: &mut W) -> Result<(), Failure>
    ensures { (input : Known) → Prints (Ok text.now)
        (record { input = input; output = W.output writer.old })
        (record { input = input; output = W.output writer.new }) result }
{
    match writer.write_whole(text) {
        Ok(()) => Ok(()),
        Err(_) => Err(Failure::Write),
    }
}
