// Why arguments ask for no command.

ghost use Rattle.clap.specs.Words.{kind_of};
ghost use Rattle.omaha_arguments.specs.Errors.{IsOfKind};

use clap::Error;
use clap::error::ErrorKind;
use std::alloc::{AllocError, Global};
use streams::Shown;
use values::Text;

/// Why the arguments ask for no command.
#[derive(Drop)]
pub enum ArgumentError {
    /// They ask for the help or the version, which is this string.
    Shown(Text),
    /// They are invalid, as this message says.
    Invalid(Text),
    /// Memory ran out.
    Memory,
}

// Writes a line without control characters.
fn write_line(shown: &mut String, line: &str) -> Result<(), AllocError> {
    if !line.is_empty() {
        let line = Shown { string: line };
        write!(shown, "{line}")?;
    }
    shown.push_str("\n")
}

// Writes the lines of a message, each without control characters.
fn shown_lines(alloc: Global, message: &str) -> Result<String, AllocError> {
    let mut shown = String::new(alloc);
    for line in message.lines() {
        write_line(&mut shown, line)?;
    }
    Ok(shown)
}

// The message of an error of `clap`.
fn message_of(alloc: Global, error: &Error) -> Result<Text, AllocError> {
    let message = format!(in alloc; "{error}")?;
    let shown = shown_lines(alloc, message.as_str())?;
    Ok(Text::new(shown))
}

// What an error of `clap` says; its message may repeat an argument.
pub(crate) fn argument_error(alloc: Global, error: &Error) -> ArgumentError
    ensures { IsOfKind (kind_of error.now) result }
{
    if error.kind() == ErrorKind::OutOfMemory {
        return ArgumentError::Memory;
    }
    let Ok(text) = message_of(alloc, error) else {
        return ArgumentError::Memory;
    };
    match error.kind() {
        ErrorKind::DisplayHelp => ArgumentError::Shown(text),
        ErrorKind::DisplayVersion => ArgumentError::Shown(text),
        _ => ArgumentError::Invalid(text),
    }
}
