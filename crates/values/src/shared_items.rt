ghost use Rattle.std.specs.Prelude.{◌≡◌, ◌<◌, ◌≤◌, [], insert, length, slice_set, IfOk, OnErr, OnOk};
ghost use Rattle.values.specs.Lists.{IsExact};

use std::alloc::{AllocError, Global};
use std::marker::Model;
use std::sync::Arc;

/// Items in order that clones have in common, which contracts see as their list.
///
/// A clone copies no item. The first change of a list that has clones copies its items, and leaves the
/// clones as they are.
pub struct SharedItems<T> {
    items: Arc<Vec<T>>,
}

// Written out, so that no caller proves again how each part is dropped.
impl<T: Drop> Drop for SharedItems<T> {
    fn drop(self) {
        let SharedItems { items: _ } = self;
    }
}

impl<T> Model for SharedItems<T> {
    ghost use Rattle.std.specs.Prelude.{List};
    ghost use Rattle.std.specs.Arc.{arc_value};

    ghost Value = { List T };

    ghost view = { λ a. (arc_value a.items).items };
}

impl<T: Drop> Clone for SharedItems<T> {
    ghost use Rattle.std.specs.Prelude.{◌≡◌};

    ghost is_clone = { λ items copy. copy ≡ items };

    fn clone(&self) -> Result<SharedItems<T>, AllocError> {
        let items = Arc::try_clone(&self.items)?;
        Ok(SharedItems { items })
    }
}

impl<T> SharedItems<T> {
    /// Makes a list of a `Vec`.
    pub fn new(alloc: Global, items: Vec<T>) -> Result<SharedItems<T>, AllocError>
    where
        T: Drop,
        ensures { IfOk result (λ made. made ≡ items.items) }
    {
        let items = Arc::new(alloc, items)?;
        Ok(SharedItems { items })
    }

    /// Makes an empty list.
    pub fn empty(alloc: Global) -> Result<SharedItems<T>, AllocError>
    where
        T: Drop,
        ensures { IfOk result (λ made. made ≡ []) }
    {
        SharedItems::new(alloc, Vec::new(alloc))
    }

    /// Borrows the list.
    pub fn as_slice(&self) -> &[T]
        ensures { result.now ≡ self.now }
    {
        self.items.as_slice()
    }

    /// How many items there are.
    pub fn len(&self) -> usize
        ensures { result ≡ length self.now }
    {
        self.items.len()
    }

    /// Adds an item before the one at `index`, or at the end if `index` is the length.
    ///
    /// If memory runs out, the list is unchanged.
    pub fn insert(&mut self, index: usize, item: T) -> Result<(), AllocError>
    where
        T: Clone + Drop,
        requires there { index ≤ length self.old }
        requires exact { IsExact T.is_clone }
        ensures ok { OnOk result (self.new ≡ insert self.old index item) }
        ensures err { OnErr result (self.new ≡ self.old) }
    {
        let own = Arc::make_mut(&mut self.items)?;
        own.insert(index, item)?;
        Ok(())
    }

    /// Puts an item in the place of the one at `index`.
    ///
    /// If memory runs out, the list is unchanged.
    pub fn replace(&mut self, index: usize, item: T) -> Result<(), AllocError>
    where
        T: Clone + Drop,
        requires there { index < length self.old }
        requires exact { IsExact T.is_clone }
        ensures ok { OnOk result (self.new ≡ slice_set self.old index item) }
        ensures err { OnErr result (self.new ≡ self.old) }
    {
        let own = Arc::make_mut(&mut self.items)?;
        own[index] = item;
        Ok(())
    }
}
