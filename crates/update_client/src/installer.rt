ghost use Rattle.std.specs.Prelude.{◌≡◌, ◌+◌, ◌++◌, [], OnOk, is_ok, if◌then◌else◌};
ghost use Rattle.update_client.specs.Installing.{committed, uncommitted};

use std::alloc::AllocError;
use values::{Failed, Text};

/// One accepted offer.
pub struct Step {
    /// Whether the file is a differential.
    pub diff: bool,
    /// The offered version.
    pub version: Text,
    /// The fingerprint of the offered version.
    pub fp: Text,
    /// The length of the file in bytes.
    pub bytes: u64,
}

// Written out, so that no caller proves again how each part is dropped.
impl Drop for Step {
    fn drop(self) {
        let Step {
            diff: _,
            version: _,
            fp: _,
            bytes: _,
        } = self;
    }
}

impl Clone for Step {
    ghost use Rattle.std.specs.Prelude.{◌≡◌};

    ghost is_clone = { λ step copy. copy ≡ step };

    fn clone(&self) -> Result<Step, AllocError> {
        let version = self.version.clone()?;
        let fp = self.fp.clone()?;
        Ok(Step {
            diff: self.diff,
            version,
            fp,
            bytes: self.bytes,
        })
    }
}

/// Keeps the bytes of a download, and installs them.
pub trait Installer {
    ghost use Rattle.std.specs.Prelude.{⊤, ℕ, List};
    ghost use Rattle.update_client.specs.declared.installer.Step.{Step};

    // the bytes that are staged
    ghost staged: { Self → List ℕ };

    // what was committed, each step with its bytes
    ghost commits: { Self → List (Step × List ℕ) };

    // the steps whose commit failed
    ghost rejected: { Self → List Step };

    // how many calls failed
    ghost failures: { Self → ℕ };

    // what is so of an installer since an earlier state, and stays so at each call; the default says nothing
    ghost holds_since: { Self → Self → Type 0 } = { λ first now. ⊤ };

    /// Stages more bytes after those that are staged.
    fn put(&mut self, bytes: &[u8]) -> Result<(), Failed>
        ensures staged { OnOk result (staged self.new ≡ staged self.old ++ bytes.now) }
        ensures commits { commits self.new ≡ commits self.old }
        ensures rejected { rejected self.new ≡ rejected self.old }
        ensures failed { failures self.new ≡ failures self.old + (if is_ok result then 0 else 1) }
        ensures kept { (first : _) → holds_since first self.old → holds_since first self.new };

    /// Installs the staged bytes; afterwards none is staged.
    fn commit(&mut self, step: &Step) -> Result<(), Failed>
        ensures staged { OnOk result (staged self.new ≡ []) }
        ensures commits { commits self.new
            ≡ commits self.old ++ committed result step.now (staged self.old) }
        ensures rejected { rejected self.new ≡ rejected self.old ++ uncommitted result step.now }
        ensures failed { failures self.new ≡ failures self.old + (if is_ok result then 0 else 1) }
        ensures kept { (first : _) → holds_since first self.old → holds_since first self.new };

    /// Drops the staged bytes.
    fn discard(&mut self)
        ensures staged { staged self.new ≡ [] }
        ensures commits { commits self.new ≡ commits self.old }
        ensures rejected { rejected self.new ≡ rejected self.old }
        ensures failed { failures self.new ≡ failures self.old }
        ensures kept { (first : _) → holds_since first self.old → holds_since first self.new };
}
