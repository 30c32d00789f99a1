// Why a server ends early.

use package_files::Lack;
use std::alloc::AllocError;
use values::Text;

/// Why a server ends before its last session or without its totals.
#[derive(Debug, Drop)]
pub enum ServerError {
    /// The address could not be bound.
    Net,
    /// The operator's address could not be bound.
    OperatorNet,
    /// The log could not be opened.
    Log,
    /// The folder of packages is no folder, or can't be seen.
    Folder,
    /// The folder doesn't have the package of this name with its size, and must have it: this is what it has.
    Package(Text, Lack),
    /// There is no place for a view of the editions.
    NoPlace,
    /// A thread could not be started.
    Thread,
    /// An ask was rejected for which a mirror has room, by its total at the end and its first budget.
    RoomLeft,
    /// A worker's view is not of what the operator published.
    Unpublished,
    /// A port ended before its last connection, though nobody asked the server to end.
    EndedEarly,
    /// The output could not be written.
    Write,
    /// Memory ran out.
    Memory,
}

impl From<AllocError> for ServerError {
    ghost use Rattle.std.specs.Prelude.{◌≡◌};
    ghost use Rattle.server_ports.specs.declared.error.ServerError.TheVariants.{Memory};

    ghost from_gives = { λ _ error. error ≡ Memory };

    fn from(_refused: AllocError) -> ServerError {
        ServerError::Memory
    }
}
