// The path of a history that may be in etcd.

ghost use Rattle.std.specs.Prelude.{◌≡◌, ◌∷◌, []};
ghost use Rattle.clap.specs.Words.{HasKind};
ghost use Rattle.omaha_arguments.specs.HistoryPaths.{history_fault};

use crate::options::Making;
use crate::rejections::{out_of_memory, rejection};
use clap::Error;
use clap::error::ErrorKind;
use etcd_records::{EtcdPathFault, parse_etcd_path};
use std::alloc::Global;

/// What is wrong with a path that begins with `etcd://`.
pub(crate) fn history_fault(path: &str) -> Option<EtcdPathFault>
    ensures { result ≡ history_fault path.now }
{
    match parse_etcd_path(path) {
        Some(Err(fault)) => Some(fault),
        Some(Ok(_)) => None,
        None => None,
    }
}

/// The error of a command whose history's path is invalid.
pub(crate) fn invalid_history(
    alloc: Global,
    command: Making<'_>,
    name: &str,
    fault: EtcdPathFault,
) -> Error
    ensures { HasKind (ErrorKind.ValueValidation ∷ []) result }
{
    let message = format!(in alloc;
        "the history's path has a fault, {fault}: in etcd it is etcd://HOST:PORT,HOST:PORT/PREFIX"
    );
    match message {
        Ok(message) => rejection(
            alloc,
            command,
            name,
            ErrorKind::ValueValidation,
            message.as_str(),
        ),
        Err(error) => out_of_memory(error),
    }
}
