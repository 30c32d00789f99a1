// Scripts of files.

ghost use Rattle.std.specs.Prelude.{◌≡◌, Err, IfErr, IfOk, Ok};
ghost use Rattle.omaha_commands.specs.ScriptFiles.{IsScriptOf, IsScriptRead, IsUnreadScript};
ghost use Rattle.profile_toml.specs.Reading.{script_of_bytes};

use catalogue::Batch;
use failures::Failure;
use profile_toml::read_script;
use std::alloc::Global;
use streams::{Disk, ReadFailure};
use values::{ReadError, Text};

/// How many bytes a script may have.
pub(crate) const MAX_SCRIPT: u32 = 262144;

/// Reads a script.
pub(crate) fn script_in(alloc: Global, script: &[u8]) -> Result<(u64, Batch), Failure>
    ensures ok { IfOk result (λ read. script_of_bytes script.now ≡ Ok read) }
    ensures err { IfErr result (λ failure. IsUnreadScript script.now failure) }
{
    match read_script(alloc, script) {
        Ok(read) => Ok(read),
        Err(ReadError::Fault(fault)) => Err(Failure::Script(fault)),
        Err(ReadError::Memory) => Err(Failure::Memory),
    }
}

/// Reads the script of a file.
pub(crate) fn read_script_file<R: Disk + AllocGlobal>(
    rt: &R,
    path: &Text,
) -> Result<(u64, Batch), Failure>
    ensures ok { IfOk result (λ script. IsScriptOf (R.file_at rt.now) path.now (Ok script)) }
    ensures err { IfErr result (λ failure. IsScriptOf (R.file_at rt.now) path.now (Err failure)) }
{
    match rt.read_file(rt.alloc(), path.as_str(), MAX_SCRIPT) {
        Ok(script) => script_in(rt.alloc(), script.as_slice()),
        Err(ReadFailure::Memory) => Err(Failure::Memory),
        Err(_) => Err(Failure::File(path.clone()?)),
    }
}

/// Reads the script of a review, if it has one.
pub(crate) fn read_script_of<R: Disk + AllocGlobal>(
    rt: &R,
    path: &Option<Text>,
) -> Result<Option<(u64, Batch)>, Failure>
    ensures ok { IfOk result (λ script. IsScriptRead (R.file_at rt.now) path.now (Ok script)) }
    ensures err { IfErr result (λ failure. IsScriptRead (R.file_at rt.now) path.now (Err failure)) }
{
    match path {
        None => Ok(None),
        Some(path) => match read_script_file(rt, path) {
            Ok(script) => Ok(Some(script)),
            Err(failure) => Err(failure),
        },
    }
}
