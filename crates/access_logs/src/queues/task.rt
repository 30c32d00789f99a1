// What a thread of a scope does, and what comes of it.

ghost use Rattle.std.specs.Prelude.{◌≡◌, IfSome};

use std::snapshot::Snapshot;
use std::thread::{Promise, PromisedHandle, Scope};

/// What a thread does. It may hold what is borrowed by `&mut`, and give it back.
pub trait Task {
    /// What comes of it.
    type End: Send + Drop;

    // from the task to its end
    ghost comes_to: { Self → Self.End → Type 0 };

    /// Does it.
    fn run(self) -> Self::End
        ensures { comes_to self result };
}

/// That a thread ends with what its task comes to.
#[derive(Drop)]
pub struct Ending<T: Drop>(Snapshot<T>);

impl<T: Task + Drop> Promise<T::End> for Ending<T> {
    ghost kept_by = { λ promise end. T.comes_to promise.0.value end };
}

/// Starts a thread for a task; or `None` if there can be none.
pub(crate) fn start<'s, E, T: Task + Send + Drop + 's>(
    scope: &Scope<'s, E>,
    task: T,
) -> Option<PromisedHandle<T::End, Ending<T>>>
    ensures { IfSome result (λ handle. handle.promise.0.value ≡ task) }
{
    let promise = Ending(Snapshot::of(&task));
    match scope.spawn_with(promise, move || task.run()) {
        Ok(handle) => Some(handle),
        Err(_) => None,
    }
}
