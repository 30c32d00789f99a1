//! A value for contracts alone.

ghost use Rattle.std.specs.Borrow.{ftrue};
ghost use Rattle.std.specs.Prelude.{◌≡◌};

use std::marker::{Model, PhantomData};

/// A `T` as contracts see it; it has no bytes and owns nothing.
pub struct Kept<T> {
    marker: PhantomData<T>,
    pub ghost value: { T },
}

impl<T> Model for Kept<T> {
    ghost also_owns = { λ _. ftrue };
}

impl<T> Kept<T> {
    /// Keeps what a reference shows.
    pub fn of(x: &T) -> Kept<T>
        ensures { result.value ≡ x.now }
    {
        let _ = x;
        Kept {
            marker: PhantomData,
        }
    }

    /// Keeps the same value again.
    pub fn copy(&self) -> Kept<T>
        ensures { result.value ≡ self.now.value }
    {
        let _ = self;
        Kept {
            marker: PhantomData,
        }
    }
}

// A kept value is there for contracts alone, so nothing of a `T` goes to another thread with it.
unsafe impl<T> Send for Kept<T> {}

unsafe impl<T> Sync for Kept<T> {}

impl<T> Drop for Kept<T> {
    fn drop(self) {
        let Self { marker: _ } = self;
    }
}
