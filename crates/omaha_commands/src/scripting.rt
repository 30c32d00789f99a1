// The command `script`.

ghost use Rattle.std.specs.Prelude.{Err, IfErr, IfOk, Ok};
ghost use Rattle.omaha_commands.specs.Scripting.{FindsScript, IsBase, IsScript, PrintsScript};
ghost use Rattle.streams.specs.Streams.{Known};

use crate::asking::{SECONDS, edition_at};
use failures::Failure;
use omaha_arguments::{Base, Script};
use profile_toml::write_script;
use profiles::print;
use std::alloc::Global;
use streams::WriteWhole;
use update_client::Connector;
use values::{ReadError, Text};

// The number of the edition that a script is for.
fn base_of<R: Connector>(rt: &R, alloc: Global, base: &Base) -> Result<u64, Failure>
    ensures ok { IfOk result (λ number. IsBase (R.operated rt.now) base.now (Ok number)) }
    ensures err { IfErr result (λ failure. IsBase (R.operated rt.now) base.now (Err failure)) }
{
    match base {
        Base::Number(number) => Ok(*number),
        Base::Server(to) => edition_at(rt, alloc, to, SECONDS),
    }
}

// The script of some words for an edition, or why there is none.
fn script_of(alloc: Global, base: u64, words: &[Text]) -> Result<Vec<u8>, Failure>
    ensures ok { IfOk result (λ text. IsScript base words.now (Ok text.items)) }
    ensures err { IfErr result (λ failure. IsScript base words.now (Err failure)) }
{
    match write_script(alloc, base, words) {
        Ok(text) => Ok(text),
        Err(ReadError::Fault(fault)) => Err(Failure::Script(fault)),
        Err(ReadError::Memory) => Err(Failure::Memory),
    }
}

// The script that is asked for, or why there is none.
fn find_script<R: Connector>(rt: &R, alloc: Global, asked: &Script) -> Result<Vec<u8>, Failure>
    ensures ok { IfOk result (λ text. FindsScript (R.operated rt.now) asked.now (Ok text.items)) }
    ensures err { IfErr result (λ failure. FindsScript (R.operated rt.now) asked.now (Err failure)) }
{
    match base_of(rt, alloc, &asked.base) {
        Ok(base) => script_of(alloc, base, asked.words.as_slice()),
        Err(failure) => Err(failure),
    }
}

// rule: Printed script
/// Prints the script that is typed, for the edition of a number or for that of a running server, which is asked for it.
///
/// Fails with `Net` if the server's listener can't be reached or names no edition, and with the fault that the script would
/// have; each time nothing is printed. If the writer fails, a first part is printed, and not all of it.
pub fn print_script<R: Connector, W: WriteWhole>(
    rt: &R,
    alloc: Global,
    asked: &Script,
    writer: &mut W,
) -> Result<(), Failure>
    ensures { (input : Known) → PrintsScript (R.operated rt.now) asked.now
        (record { input = input; output = W.output writer.old })
        (record { input = input; output = W.output writer.new }) result }
{
    match find_script(rt, alloc, asked) {
        Ok(text) => print(text.as_slice(), writer),
        Err(failure) => Err(failure),
    }
}
