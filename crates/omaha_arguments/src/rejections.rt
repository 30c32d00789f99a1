// The errors of arguments that `clap` accepts and the program doesn't, built like those of `clap`.

ghost use Rattle.std.specs.Prelude.{◌≡◌, [], ◌∷◌, IfOk};
ghost use Rattle.clap.specs.Words.{HasKind, kind_of};

use crate::options::{Making, with_verbose};
use clap::Error;
use clap::error::ErrorKind;
use std::alloc::{AllocError, Global};

/// The error for memory that ran out.
pub(crate) fn out_of_memory(error: AllocError) -> Error
    ensures { kind_of result ≡ ErrorKind.OutOfMemory }
{
    Error::from(error)
}

// The error of a kind, with the usage of a command, or that memory ran out.
fn usage_error(
    command: Result<clap::Command<'_>, AllocError>,
    kind: ErrorKind,
    message: &str,
) -> Result<Error, AllocError>
    ensures { IfOk result (λ error. kind_of error ≡ kind) }
{
    match command {
        Ok(mut command) => command.error(kind, message),
        Err(error) => Err(error),
    }
}

// The error of a kind, with the usage of a command under its full name.
fn error_with_usage(
    alloc: Global,
    command: Making<'_>,
    name: &str,
    kind: ErrorKind,
    message: &str,
) -> Result<Error, AllocError>
    ensures { IfOk result (λ error. kind_of error ≡ kind) }
{
    match with_verbose(alloc, command).into_made() {
        Ok(command) => usage_error(command.bin_name(name), kind, message),
        Err(error) => Err(error),
    }
}

/// The error of a kind, with the usage of a command under its full name, or that memory ran out.
pub(crate) fn rejection(
    alloc: Global,
    command: Making<'_>,
    name: &str,
    kind: ErrorKind,
    message: &str,
) -> Error
    ensures { HasKind (kind ∷ []) result }
{
    match error_with_usage(alloc, command, name, kind, message) {
        Ok(error) => error,
        Err(error) => out_of_memory(error),
    }
}
