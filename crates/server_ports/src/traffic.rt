// What a server has served so far, and where.

ghost use Rattle.std.specs.Prelude.{◌≡◌, IfOk};
ghost use Rattle.server_ports.specs.Counting.{cohort_counts};
ghost use Rattle.tallies.specs.Totals.{IsOfSize};

use catalogue::App;
use std::alloc::{AllocError, Global};
use std::sync::OnceLock;
use tallies::{Tallies, Tally, Totals};
use values::Text;

/// What a server has served so far, and where. Any thread may use it, without a lock.
pub struct Traffic {
    tallies: Tallies,
    // the address that the clients' ports were given
    address: OnceLock<Text>,
}

// Written out, so that no caller proves again how each part is dropped.
impl Drop for Traffic {
    fn drop(self) {
        let Traffic {
            tallies: _,
            address: _,
        } = self;
    }
}

/// What a server has served up to some time, and where.
#[derive(Drop)]
pub struct ServedSoFar {
    /// What the workers counted.
    pub totals: Totals,
    /// The address of the clients, or nothing before the ports are there.
    pub address: Text,
}

// How many cohorts each app has.
fn cohorts_of(alloc: Global, apps: &[App]) -> Result<Vec<usize>, AllocError>
    ensures { IfOk result (λ cohorts. cohorts.items ≡ cohort_counts apps.now) }
{
    let mut cohorts = Vec::with_capacity(alloc, apps.len())?;
    for app in apps {
        cohorts.push(app.cohorts.as_slice().len())?;
    }
    Ok(cohorts)
}

// A tally for each worker.
fn tallies_of(
    alloc: Global,
    workers: usize,
    mirrors: usize,
    apps: &[App],
) -> Result<Tallies, AllocError> {
    let cohorts = cohorts_of(alloc, apps)?;
    Tallies::new(alloc, workers, mirrors, &cohorts)
}

impl Traffic {
    /// Begins with nothing, for so many workers and mirrors, and for the apps of a catalogue. If memory runs out, nothing is
    /// counted: `is_short` says so.
    pub fn new(alloc: Global, workers: usize, mirrors: usize, apps: &[App]) -> Traffic {
        let tallies = match tallies_of(alloc, workers, mirrors, apps) {
            Ok(tallies) => tallies,
            Err(_) => Tallies::empty(alloc),
        };
        Traffic {
            tallies,
            address: OnceLock::new(),
        }
    }

    /// Whether there was no memory for what is counted.
    pub fn is_short(&self) -> bool {
        self.tallies.is_empty()
    }

    /// What a worker counts in, by its number from 0.
    pub fn tally(&self, worker: usize) -> &Tally {
        self.tallies.of(worker)
    }

    /// Notes the address that the clients' ports were given.
    pub(crate) fn bind(&self, address: Text) {
        let _ = self.address.try_set(address);
    }

    // That address, or none before the ports are there.
    fn address(&self, alloc: Global) -> Result<Text, AllocError> {
        match self.address.get() {
            Some(address) => address.clone(),
            None => Ok(Text::new(String::new(alloc))),
        }
    }

    // rule: Sums of tallies
    /// What was served so far: the totals have a number for each status, each of so many mirrors, and each cohort of the apps
    /// of a catalogue. Fails if memory runs out.
    pub fn served(
        &self,
        alloc: Global,
        mirrors: usize,
        apps: &[App],
    ) -> Result<ServedSoFar, AllocError>
        ensures { IfOk result (λ served. IsOfSize mirrors (cohort_counts apps.now) served.totals) }
    {
        let cohorts = cohorts_of(alloc, apps)?;
        let totals = self.tallies.totals(alloc, mirrors, &cohorts)?;
        let address = self.address(alloc)?;
        Ok(ServedSoFar { totals, address })
    }
}
