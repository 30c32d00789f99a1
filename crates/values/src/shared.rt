ghost use Rattle.std.specs.Prelude.{◌≡◌, IfOk};

use std::alloc::{AllocError, Global};
use std::marker::Model;
use std::sync::Arc;

/// An item that its clones have in common, which contracts see as the item.
///
/// A clone copies no more than a pointer, and so does a list that moves it.
pub struct Shared<T> {
    item: Arc<T>,
}

// Written out, so that no caller proves again how each part is dropped.
impl<T: Drop> Drop for Shared<T> {
    fn drop(self) {
        let Shared { item: _ } = self;
    }
}

impl<T> Model for Shared<T> {
    ghost use Rattle.std.specs.Arc.{arc_value};

    ghost Value = { T };

    ghost view = { λ a. arc_value a.item };
}

impl<T: Drop> Clone for Shared<T> {
    ghost use Rattle.std.specs.Prelude.{◌≡◌};

    ghost is_clone = { λ item copy. copy ≡ item };

    fn clone(&self) -> Result<Shared<T>, AllocError> {
        let item = Arc::try_clone(&self.item)?;
        Ok(Shared { item })
    }
}

impl<T> Shared<T> {
    /// Makes an item that can be shared.
    pub fn new(alloc: Global, item: T) -> Result<Shared<T>, AllocError>
    where
        T: Drop,
        ensures { IfOk result (λ made. made ≡ item) }
    {
        let item = Arc::new(alloc, item)?;
        Ok(Shared { item })
    }

    /// Borrows the item.
    pub fn get(&self) -> &T
        ensures { result.now ≡ self.now }
    {
        &self.item
    }
}
