//! The packages of a catalogue by name.
//!
//! A package is in one of 1021 shards, which its name says; a shard finds it in logarithmic time. An
//! index and its copies have their shards in common, until one of them puts a package in: then it copies
//! that package's shard.

ghost use Rattle.std.specs.Prelude.{◌≡◌, ◌<◌, ◌≤◌, List, ℕ, IfOk, OnOk, None, Some, length, map, string_bytes, if◌then◌else◌};
ghost use Rattle.std.specs.Arc.{arc_value};
ghost use Rattle.std.specs.Str.{bytes_eq};
ghost use Rattle.catalogue.specs.PackageIndex.{found_in, found_in_shard, shard_of};

use crate::Declared;
use std::alloc::{AllocError, Global};
use std::collections::BTreeMap;
use std::sync::Arc;

const SHARDS: usize = 1021;

/// What is declared of the packages of one shard, by their names.
#[derive(Drop)]
pub(crate) struct Shard {
    declared: BTreeMap<String, Declared>,
}

impl Clone for Shard {
    ghost use Rattle.std.specs.Prelude.{◌≡◌, List, ℕ};
    ghost use Rattle.catalogue.specs.PackageIndex.{found_in_shard};

    ghost is_clone = { λ shard copy. (name : List ℕ) → found_in_shard copy name ≡ found_in_shard shard name };

    fn clone(&self) -> Result<Shard, AllocError> {
        let declared = self.declared.clone()?;
        Ok(Shard { declared })
    }
}

impl Shard {
    fn empty(alloc: Global) -> Shard
        ensures { (name : List ℕ) → found_in_shard result name ≡ None }
    {
        Shard {
            declared: BTreeMap::new(alloc),
        }
    }

    fn find(&self, name: &str) -> Option<Declared>
        ensures { result ≡ found_in_shard self.now name.now }
    {
        self.declared.get(name).copied()
    }

    fn insert(&mut self, name: String, declared: Declared) -> Result<(), AllocError>
        ensures { OnOk result
            ((other : List ℕ) → found_in_shard self.new other
            ≡ (if bytes_eq (string_bytes name) other then Some declared else found_in_shard self.old other)) }
    {
        self.declared.insert(name, declared)?;
        Ok(())
    }
}

// Which shard a name belongs to.
fn shard_of(name: &str) -> usize
    ensures value { result ≡ shard_of name.now }
    ensures bound { result < 1021 }
{
    let mut rest = 0;
    for byte in name.as_bytes() {
        rest = (rest * 256 + usize::from(*byte)) % SHARDS;
    }
    rest
}

// Puts a package into a shard, which is copied first if another index has it too.
fn insert_in(shard: &mut Arc<Shard>, name: String, declared: Declared) -> Result<(), AllocError>
    ensures { OnOk result
        ((other : List ℕ) → found_in_shard (arc_value shard.new) other
        ≡ (if bytes_eq (string_bytes name) other then Some declared else found_in_shard (arc_value shard.old) other)) }
{
    let own = Arc::make_mut(shard)?;
    own.insert(name, declared)
}

// The same shards, in a list of their own.
fn share(alloc: Global, shards: &[Arc<Shard>]) -> Result<Vec<Arc<Shard>>, AllocError>
    ensures { IfOk result (λ copy. map arc_value copy.items ≡ map arc_value shards.now) }
{
    let mut copy = Vec::with_capacity(alloc, shards.len())?;
    for shard in shards {
        copy.push(Arc::try_clone(shard)?)?;
    }
    Ok(copy)
}

/// What is declared of each package, by the package's name.
pub(crate) struct PackageIndex {
    alloc: Global,
    // none at first, and all from the first package on
    shards: Vec<Arc<Shard>>,
}

// Written out, so that no caller proves again how each part is dropped.
impl Drop for PackageIndex {
    fn drop(self) {
        let PackageIndex {
            alloc: _,
            shards: _,
        } = self;
    }
}

impl PackageIndex {
    /// Makes an index of no packages, and takes no memory.
    pub(crate) fn new(alloc: Global) -> PackageIndex
        ensures { (name : List ℕ) → found_in result name ≡ None }
    {
        PackageIndex {
            alloc,
            shards: Vec::new(alloc),
        }
    }

    /// What is declared of the package of a name.
    pub(crate) fn find(&self, name: &str) -> Option<Declared>
        ensures { result ≡ found_in self.now name.now }
    {
        match self.shards.get(shard_of(name)) {
            Some(shard) => shard.find(name),
            None => None,
        }
    }

    // Adds the empty shards that are not there yet.
    fn complete(&mut self) -> Result<(), AllocError>
        ensures found { OnOk result ((name : List ℕ) → found_in self.new name ≡ found_in self.old name) }
        ensures count { OnOk result (1021 ≤ length self.new.shards.items) }
    {
        for _ in self.shards.len()..SHARDS {
            let shard = Arc::new(self.alloc, Shard::empty(self.alloc))?;
            self.shards.push(shard)?;
        }
        Ok(())
    }

    /// Puts a package in.
    pub(crate) fn insert(&mut self, name: String, declared: Declared) -> Result<(), AllocError>
        ensures { OnOk result
            ((other : List ℕ) → found_in self.new other
            ≡ (if bytes_eq (string_bytes name) other then Some declared else found_in self.old other)) }
    {
        self.complete()?;
        let place = shard_of(name.as_str());
        insert_in(&mut self.shards[place], name, declared)?;
        Ok(())
    }

    /// Makes an index that finds the same; it has the shards in common with this one.
    pub(crate) fn copy(&self) -> Result<PackageIndex, AllocError>
        ensures { IfOk result (λ copy. (name : List ℕ) → found_in copy name ≡ found_in self.now name) }
    {
        let shards = share(self.alloc, self.shards.as_slice())?;
        Ok(PackageIndex {
            alloc: self.alloc,
            shards,
        })
    }
}
