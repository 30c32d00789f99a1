// What is known beside what is published.

ghost use Rattle.std.specs.Prelude.{◌≤◌, ◌^◌};

use operator_pages::Counts;

/// What the operator's thread knows beside what is published.
#[derive(Clone, Copy)]
pub(crate) struct Circumstances {
    /// How many editions there were before the first record.
    pub(crate) earlier: u64,
    /// What the operator's calls came to.
    pub(crate) counts: Counts,
    /// Whether the server was asked to end.
    pub(crate) ending: bool,
    ghost bounded: { earlier ≤ 2 ^ 53 },
}
