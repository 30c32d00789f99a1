ghost use Rattle.std.specs.Prelude.{◌≡◌, ◌+◌, ◌<◌, ◌≤◌, ◌++◌, [], ◌∷◌, take, length, IfOk, OnOk, is_ok, if◌then◌else◌};
ghost use Rattle.std.specs.Result.{result_map_both};
ghost use Rattle.update_client.specs.Installing.{posted};

use std::alloc::Global;
use values::Failed;

/// Posts requests to a server, and carries downloads.
pub trait Link {
    ghost use Rattle.std.specs.Prelude.{ℕ, List};

    // the posts that got a reply, each with it
    ghost posts: { Self → List (List ℕ × List ℕ) };

    // the addresses that were to be opened, in order, also those that failed to open
    ghost opened: { Self → List (List ℕ) };

    // the bytes that were read of the download that was opened last
    ghost received: { Self → List ℕ };

    // whether that download has no more bytes
    ghost ended: { Self → Type 0 };

    // how many calls failed
    ghost failures: { Self → ℕ };

    /// Posts a request, and returns the reply's bytes.
    fn post(&mut self, alloc: Global, body: &[u8]) -> Result<Vec<u8>, Failed>
        ensures posts { posts self.new ≡ posts self.old
            ++ posted (result_map_both (λ reply. reply.items) (λ error. error) result) body.now }
        ensures opened { opened self.new ≡ opened self.old }
        ensures failed { failures self.new ≡ failures self.old + (if is_ok result then 0 else 1) };

    /// Opens the download at an address, in place of the one that was opened before; its bytes are then
    /// read from the first one on.
    fn open(&mut self, address: &str) -> Result<(), Failed>
        ensures opened { opened self.new ≡ opened self.old ++ address.now ∷ [] }
        ensures posts { posts self.new ≡ posts self.old }
        ensures fresh { OnOk result (received self.new ≡ []) }
        ensures failed { failures self.new ≡ failures self.old + (if is_ok result then 0 else 1) };

    /// Reads some bytes into the front of `into`, and returns how many; 0 only at the end.
    fn read(&mut self, into: &mut [u8]) -> Result<usize, Failed>
        ensures posts { posts self.new ≡ posts self.old }
        ensures opened { opened self.new ≡ opened self.old }
        ensures bound { IfOk result (λ count. count ≤ length into.new) }
        ensures bytes { IfOk result (λ count. received self.new
            ≡ received self.old ++ take count into.new) }
        ensures end { IfOk result (λ count. 0 < length into.new → count ≡ 0 → ended self.new) }
        ensures failed { failures self.new ≡ failures self.old + (if is_ok result then 0 else 1) };
}
