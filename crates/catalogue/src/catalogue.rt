ghost use Rattle.std.specs.Prelude.{◌≡◌, ◌<◌, [], length, slice_get, IfOk, IfErr, OnOk, OnErr, Some, Ok, position};
ghost use Rattle.catalogue.specs.Batches.{outcome};
ghost use Rattle.catalogue.specs.Validity.{IsValid};
ghost use Rattle.catalogue.specs.Lookups.{cohorts_at, declared_of, diffs_at, has_hash, is_app, is_cohort, is_diff, is_release, releases_at};
ghost use Rattle.values.specs.Reading.{Explains};

use crate::content::{App, Cohort, Diff, Release};
use crate::draft::Draft;
use crate::edit::Batch;
use crate::fault::Refused;
use crate::package_index::PackageIndex;
use crate::version::Version;
use crate::{Declared, lookup};
use std::alloc::{AllocError, Global};
use std::marker::Model;
use values::{Items, ReadError, Shared};

/// The apps of a vendor, which contracts see as their list.
pub struct Catalogue {
    alloc: Global,
    apps: Items<App>,
    packages: PackageIndex,
}

// Written out, so that no caller proves again how each part is dropped.
impl Drop for Catalogue {
    fn drop(self) {
        let Catalogue {
            alloc: _,
            apps: _,
            packages: _,
        } = self;
    }
}

impl Model for Catalogue {
    ghost use Rattle.std.specs.Prelude.{List};
    ghost use Rattle.catalogue.specs.declared.content.App.{App};

    ghost Value = { List App };

    ghost use Rattle.catalogue.specs.Soundness.{IsSound};

    ghost view = { λ c. c.apps };

    ghost invariant = { λ c. IsSound c.packages c.apps };
}

impl Catalogue {
    /// Makes a catalogue of no apps, and takes no memory.
    pub fn empty(alloc: Global) -> Catalogue
        ensures { result ≡ [] }
    {
        Catalogue {
            alloc,
            apps: Items::empty(alloc),
            packages: PackageIndex::new(alloc),
        }
    }

    // rule: Batch
    /// Applies a batch whole, or rejects it whole.
    ///
    /// Each edit is tested against the content that those before it leave. The error names the first
    /// rejected edit and its first fault. After any error the catalogue is unchanged.
    pub fn apply(&mut self, batch: &Batch) -> Result<(), ReadError<Refused>>
        ensures ok { OnOk result (outcome batch.now self.old ≡ Ok self.new) }

        ensures refused { IfErr result (λ e. Explains e (outcome batch.now self.old)) }
        ensures err { OnErr result (self.new ≡ self.old) }
    {
        *self = self.applied(batch)?;
        Ok(())
    }

    // rule: Batch
    /// Makes the catalogue that a batch leads to, and leaves this one as it is.
    ///
    /// Its errors are those of `apply`.
    pub fn applied(&self, batch: &Batch) -> Result<Catalogue, ReadError<Refused>>
        ensures ok { IfOk result (λ next. outcome batch.now self.now ≡ Ok next) }
        ensures refused { IfErr result (λ e. Explains e (outcome batch.now self.now)) }
    {
        let mut draft = Draft::of(self.alloc, &self.apps, &self.packages)?;
        draft.run(batch.edits())?;
        Ok(Catalogue {
            alloc: self.alloc,
            apps: draft.apps,
            packages: draft.packages,
        })
    }

    /// Makes an equal catalogue in new memory.
    pub fn copy(&self) -> Result<Catalogue, AllocError>
        ensures { IfOk result (λ copy. copy ≡ self.now) }
    {
        let draft = Draft::of(self.alloc, &self.apps, &self.packages)?;
        Ok(Catalogue {
            alloc: self.alloc,
            apps: draft.apps,
            packages: draft.packages,
        })
    }

    /// Exposes the validity invariant to callers' proofs; no run-time effect.
    pub fn validity(&self)
        ensures { IsValid self.now }
    {
        let _ = &self.apps;
    }

    /// Borrows the apps, in the order of their addition.
    pub fn apps(&self) -> &[App]
        ensures { result.now ≡ self.now }
    {
        self.apps.as_slice()
    }

    /// Borrows the releases of the app at an index, by ascending version.
    pub fn releases(&self, app: usize) -> &[Release]
        requires { app < length self.now }
        ensures { result.now ≡ releases_at self.now app }
    {
        self.apps.as_slice()[app].releases.as_slice()
    }

    /// Borrows the differentials of the app at an index, by ascending `from`, then `to`.
    pub fn diffs(&self, app: usize) -> &[Shared<Diff>]
        requires { app < length self.now }
        ensures { result.now ≡ diffs_at self.now app }
    {
        self.apps.as_slice()[app].diffs.as_slice()
    }

    /// Borrows the cohorts of the app at an index: the default one, then the others in the order
    /// of their addition.
    pub fn cohorts(&self, app: usize) -> &[Cohort]
        requires { app < length self.now }
        ensures { result.now ≡ cohorts_at self.now app }
    {
        self.apps.as_slice()[app].cohorts.as_slice()
    }

    /// Finds the index of the app of an identifier, in any case of ASCII letters.
    pub fn app(&self, id: &str) -> Option<usize>
        ensures { result ≡ position (is_app id.now) self.now }
    {
        self.validity();
        lookup::index_of_app(self.apps.as_slice(), id)
    }

    // rule: Release of a version
    /// Finds the index of an app's release by its version, in logarithmic time.
    pub fn find_release(&self, app: usize, version: &Version) -> Option<usize>
        requires { app < length self.now }
        ensures { result ≡ position (is_release version.now) (releases_at self.now app) }
    {
        self.validity();
        lookup::index_of_release(self.releases(app), version)
    }

    // rule: Differential of a pair
    /// Finds the index of an app's differential by the versions that it starts at and leads to, in
    /// logarithmic time.
    pub fn find_diff(&self, app: usize, from: &Version, to: &Version) -> Option<usize>
        requires { app < length self.now }
        ensures { result ≡ position (is_diff (from.now, to.now)) (diffs_at self.now app) }
    {
        self.validity();
        lookup::index_of_diff(self.diffs(app), from, to)
    }

    /// Finds the index of an app's release by the SHA-256 of its full package.
    pub fn find_hash(&self, app: usize, hash: &[u8; 32]) -> Option<usize>
        requires { app < length self.now }
        ensures { result ≡ position (has_hash hash.now) (releases_at self.now app) }
    {
        lookup::index_of_hash(self.releases(app), hash)
    }

    /// Finds the index of an app's cohort by its name.
    pub fn find_cohort(&self, app: usize, name: &str) -> Option<usize>
        requires { app < length self.now }
        ensures { result ≡ position (is_cohort name.now) (cohorts_at self.now app) }
    {
        lookup::index_of_cohort(self.cohorts(app), name)
    }

    // rule: Package of a name
    /// Finds what is declared of the package of a name, in logarithmic time.
    pub fn package(&self, name: &str) -> Option<Declared>
        ensures { result ≡ declared_of self.now name.now }
    {
        self.packages.find(name)
    }
}
