// What replies are written to, which are sent later.

ghost use Rattle.std.specs.Prelude.{◌≡◌, ◌+◌, ◌≤◌, Some, length, IfOk, is_ok, if◌then◌else◌};
ghost use Rattle.std.specs.Io.KnownBytes.{WriteAppends};

use http_wire::{Failed, Sink};
use streams::Trace;

// Replies that are made. A write fails only if memory runs out.
#[derive(Drop)]
pub(crate) struct Made {
    pub(crate) bytes: Vec<u8>,
    pub(crate) failures: Trace<()>,
}

impl Sink for Made {
    ghost contents = { λ made. Some made.bytes.items };

    ghost failures = { λ made. length made.failures };

    fn write(&mut self, bytes: &[u8]) -> Result<usize, Failed> {
        match self.bytes.extend_from_slice(bytes) {
            Ok(()) => Ok(bytes.len()),
            Err(_) => {
                self.failures.push(&());
                Err(Failed)
            }
        }
    }
}
