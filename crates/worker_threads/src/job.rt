//! What threads do.

/// What one thread does.
pub trait Job {
    /// What it comes to.
    type End: Send + Drop;

    // from the job to its end
    ghost comes_to: { Self → Self.End → Type 0 };

    /// Does the job.
    fn work(self) -> Self::End
        ensures { comes_to self result };
}
