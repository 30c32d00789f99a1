ghost use Rattle.std.specs.Prelude.{◌≡◌, ◌+◌};

use std::marker::Model;
use std::snapshot::Snapshot;

#[derive(Drop)]
enum Marks {
    Clear,
    Marked(Snapshot<Marks>),
}

/// How many calls of a device failed, which contracts alone see: it takes no bytes at run time. Only a failed call
/// changes it.
#[derive(Drop)]
pub struct Failures {
    marks: Marks,
}

impl Model for Failures {
    ghost use Rattle.std.specs.Prelude.{ℕ};
    ghost use Rattle.http_memory.specs.Failures.{count_of};

    ghost Value = { ℕ };

    ghost view = { λ failures. count_of failures.marks };
}

impl Failures {
    pub(crate) fn none() -> Failures
        ensures { result ≡ 0 }
    {
        Failures {
            marks: Marks::Clear,
        }
    }

    pub(crate) fn count(&mut self)
        ensures { self.new ≡ self.old + 1 }
    {
        let before = Snapshot::of(&self.marks);
        self.marks = Marks::Marked(before);
    }
}
