// Streams that a person may be looking at.

use std::io::{IsTerminal, Stderr, Stdout};

/// A stream that a person may be looking at: a standard stream, or a test's stand-in for one.
pub trait Watched {
    ghost use Rattle.std.specs.Prelude.{Bool};

    // what it may be said of the stream whether it is a terminal
    ghost seen: { Self → Bool → Type 0 };

    /// Whether it is a terminal.
    fn is_watched(&self) -> bool
        ensures { seen self.now result };
}

impl Watched for Stdout {
    ghost use Rattle.std.specs.Prelude.{⊤};

    ghost seen = { λ _ _. ⊤ };

    fn is_watched(&self) -> bool {
        self.is_terminal()
    }
}

impl Watched for Stderr {
    ghost use Rattle.std.specs.Prelude.{⊤};

    ghost seen = { λ _ _. ⊤ };

    fn is_watched(&self) -> bool {
        self.is_terminal()
    }
}
