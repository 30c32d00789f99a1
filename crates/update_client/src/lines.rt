// The lines of a walk.

ghost use Rattle.std.specs.Prelude.{Some};
ghost use Rattle.update_client.specs.Lines.{done_line, step_line};

use crate::installer::Step;
use crate::walking::Walk;
use std::fmt;
use streams::Shown;

/// The line of a step: its number, what kind of file, the version and how many bytes.
#[derive(Clone, Copy)]
pub(crate) struct StepLine<'a> {
    /// The step's number, from 1.
    pub(crate) number: u64,
    /// The step.
    pub(crate) step: &'a Step,
}

// rule: Lines of a walk
impl fmt::Display for StepLine<'_> {
    ghost output = { λ line. Some (step_line line.number line.step.now) };

    fn fmt<W: fmt::Write>(&self, f: &mut fmt::Formatter<W>) -> fmt::Result {
        let number = self.number;
        let kind = if self.step.diff { "diff" } else { "full" };
        let version = Shown {
            string: self.step.version.as_str(),
        };
        let bytes = self.step.bytes;
        write!(f, "step {number} {kind} {version} {bytes}\n")
    }
}

/// The last line of a walk: how many steps there were, and how many bytes they had.
#[derive(Clone, Copy, Drop)]
pub struct DoneLine {
    /// The walk.
    pub walk: Walk,
}

impl fmt::Display for DoneLine {
    ghost output = { λ line. Some (done_line line.walk) };

    fn fmt<W: fmt::Write>(&self, f: &mut fmt::Formatter<W>) -> fmt::Result {
        let steps = self.walk.steps;
        let bytes = self.walk.bytes;
        write!(f, "done {steps} steps {bytes} bytes\n")
    }
}
