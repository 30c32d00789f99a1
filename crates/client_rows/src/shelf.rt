// An installer over memory.

ghost use Rattle.std.specs.Prelude.{◌≡◌, [], length, IfOk};

use crate::countdown::Countdown;
use std::alloc::{AllocError, Global};
use streams::Trace;
use update_client::{Failed, Installer, Step};

/// An installer that keeps what is staged, and prints what is committed.
#[derive(Drop)]
pub(crate) struct Shelf {
    alloc: Global,
    pub(crate) staged: Vec<u8>,
    countdown: Countdown,
    commits: Trace<(Step, Trace<u8>)>,
    rejected: Trace<Step>,
    failures: Trace<()>,
    /// The commits, each with its first bytes.
    pub(crate) log: String,
}

impl Shelf {
    /// An installer with nothing staged; the call after so many fails.
    pub(crate) fn new(alloc: Global, calls: u64) -> Shelf
        ensures { result.staged.items ≡ [] }
    {
        Shelf {
            alloc,
            staged: Vec::new(alloc),
            countdown: Countdown::new(calls),
            commits: Trace::new(),
            rejected: Trace::new(),
            failures: Trace::new(),
            log: String::new(alloc),
        }
    }
}

// A step as a row has it: what kind of file, the version, the fingerprint and how many bytes.
fn print_step(alloc: Global, step: &Step) -> Result<String, AllocError> {
    let kind = if step.diff { "diff" } else { "full" };
    let (version, fp, bytes) = (step.version.as_str(), step.fp.as_str(), step.bytes);
    format!(in alloc; "{kind} {version} {fp} {bytes};")
}

// The step with its bytes, for contracts.
fn commit_of(step: &Step, staged: &[u8]) -> Result<(Step, Trace<u8>), AllocError>
    ensures { IfOk result (λ commit. commit ≡ (step.now, staged.now)) }
{
    Ok((step.clone()?, Trace::of(staged)))
}

impl Installer for Shelf {
    ghost staged = { λ shelf. shelf.staged.items };

    ghost commits = { λ shelf. shelf.commits };

    ghost rejected = { λ shelf. shelf.rejected };

    ghost failures = { λ shelf. length shelf.failures };

    fn put(&mut self, bytes: &[u8]) -> Result<(), Failed> {
        if self.countdown.is_over() || self.staged.extend_from_slice(bytes).is_err() {
            self.failures.push(&());
            return Err(Failed);
        }
        Ok(())
    }

    fn commit(&mut self, step: &Step) -> Result<(), Failed> {
        if !self.countdown.is_over() {
            if let Ok(commit) = commit_of(step, &self.staged) {
                if let Ok(line) = print_step(self.alloc, step) {
                    let _ = self.log.push_str(line.as_str());
                    self.commits.push(&commit);
                    self.staged.clear();
                    return Ok(());
                }
            }
        }
        self.rejected.push(step);
        self.failures.push(&());
        Err(Failed)
    }

    fn discard(&mut self) {
        self.staged.clear();
    }
}
