// What a walk that keeps no files does with a download: it prints the line of its step.

ghost use Rattle.std.specs.Prelude.{◌≡◌, [], None, Some};
ghost use Rattle.update_client.specs.Keeping.{PrintsNext};

use crate::Failed;
use crate::installer::{Installer, Step};
use crate::lines::StepLine;
use std::alloc::Global;
use std::mem;
use std::snapshot::Snapshot;
use streams::{Trace, WriteWhole};

/// An installer that keeps no files: the client has hashed what it is given. It prints a line for each step that it
/// commits, and commits none after a line that it couldn't print.
pub(crate) struct Keeper<'a, W> {
    pub(crate) alloc: Global,
    pub(crate) out: &'a mut W,
    // how many lines are printed; none once a line couldn't be
    pub(crate) printed: Option<u64>,
    pub(crate) staged: Trace<u8>,
    pub(crate) commits: Trace<(Snapshot<Step>, Trace<u8>)>,
    pub(crate) rejected: Trace<Step>,
}

impl<'a, W> Keeper<'a, W> {
    /// An installer to which nothing was given.
    pub(crate) fn new(alloc: Global, out: &'a mut W) -> Keeper<'a, W>
        ensures same { result.out.ghost_name ≡ out.entry.ghost_name }
        ensures out { result.out.now ≡ out.old }
        ensures printed { result.printed ≡ Some 0 }
        ensures staged { result.staged ≡ [] }
        ensures commits { result.commits ≡ [] }
        ensures rejected { result.rejected ≡ [] }
    {
        Keeper {
            alloc,
            out,
            printed: Some(0),
            staged: Trace::new(),
            commits: Trace::new(),
            rejected: Trace::new(),
        }
    }
}

// Prints the line of one more step, after so many, and returns its number; or nothing, if it isn't printed whole.
fn print_next<W: WriteWhole>(
    alloc: Global,
    printed: Option<u64>,
    step: &Step,
    out: &mut W,
) -> Option<u64>
    ensures { PrintsNext printed step.now (W.output out.old) (W.output out.new) result }
{
    let number = printed?.checked_add(1)?;
    let line = StepLine { number, step };
    let line = format!(in alloc; "{line}").ok()?;
    out.write_whole(line.as_bytes()).ok()?;
    Some(number)
}

impl<W: WriteWhole> Installer for Keeper<'_, W> {
    ghost use Rattle.std.specs.Prelude.{length};
    ghost use Rattle.update_client.specs.Keeping.{HasPrinted, commits_of};

    ghost staged = { λ keeper. keeper.staged };

    ghost commits = { λ keeper. commits_of keeper.commits };

    ghost rejected = { λ keeper. keeper.rejected };

    ghost failures = { λ keeper. length keeper.rejected };

    // the writer is the same, and has what was printed since nothing was
    ghost holds_since = { λ first now. (now.out.ghost_name ≡ first.out.ghost_name)
        × HasPrinted now.printed (commits_of now.commits) now.rejected
        (W.output first.out.now) (W.output now.out.now) };

    fn put(&mut self, bytes: &[u8]) -> Result<(), Failed> {
        self.staged.extend(bytes);
        Ok(())
    }

    // rule: Printed walk
    fn commit(&mut self, step: &Step) -> Result<(), Failed> {
        self.printed = print_next(self.alloc, self.printed, step, self.out);
        if self.printed.is_none() {
            self.rejected.push(step);
            return Err(Failed);
        }
        let staged = mem::replace(&mut self.staged, Trace::new());
        self.commits.push(&(Snapshot::of(step), staged));
        Ok(())
    }

    fn discard(&mut self) {
        self.staged = Trace::new();
    }
}
