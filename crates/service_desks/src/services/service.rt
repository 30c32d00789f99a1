// What the program replies from, and how a profile's edits and mirrors make it.

ghost use Rattle.std.specs.Prelude.{◌≡◌, ◌≤◌, IfOk};
ghost use Rattle.editions.specs.Editions.{content_of};
ghost use Rattle.service_desks.specs.Builtin.{builtin_apps, builtin_service};
ghost use Rattle.service_desks.specs.Services.{service_of};
ghost use Rattle.profile_toml.specs.Laws.{AreMirrors};
ghost use Rattle.values.specs.Reading.{Reads};

use crate::services::builtin::{builtin_edition, builtin_mirror};
use crate::services::mirrors::Mirrors;
use catalogue::{Batch, Mirror, Refused};
use editions::{Edition, NextError};
use par_tables::Free;
use std::alloc::{AllocError, Global};
use std::thread::Threads;
use values::ReadError;

/// What requests are replied to from: an edition, and the mirrors of its packages.
#[derive(Drop)]
pub struct Service {
    /// The edition, which has the catalogue.
    pub edition: Edition,
    /// The mirrors, in the order in which they are asked to grant an update.
    pub mirrors: Mirrors,
}

/// A service, and where what is published of it is kept.
#[derive(Drop)]
pub struct KeptService<K> {
    /// The service.
    pub service: Service,
    /// Where scripts and raises are kept, before they take effect.
    pub records: K,
}

// rule: Built-in catalogue
/// Makes the built-in catalogue's service.
pub fn builtin_service(alloc: Global) -> Result<Service, AllocError>
    ensures service { IfOk result (λ service. service ≡ builtin_service) }
    ensures content { IfOk result (λ service. content_of service.edition ≡ builtin_apps) }
{
    let edition = builtin_edition(alloc)?;
    let mut mirrors = Vec::new(alloc);
    mirrors.push(builtin_mirror(alloc)?)?;
    Ok(Service {
        edition,
        mirrors: Mirrors::new(mirrors),
    })
}

/// Makes the service of a profile's edits and mirrors.
///
/// The mirrors are one to four valid ones, no two of one name, as `profile_toml::read_profile` returns them. The
/// tables are made in `workers` pieces, from 1 to 16, each of which may have a thread of its own. Fails with the first
/// of the edits that the empty catalogue rejects.
pub fn make_service<R: Threads>(
    rt: &R,
    alloc: Global,
    batch: Batch,
    mirrors: Vec<Mirror>,
    workers: usize,
) -> Result<Service, ReadError<Refused>>
    requires mirrors { AreMirrors mirrors.items }
    requires workers { (1 ≤ workers) × (workers ≤ 16) }
    ensures { Reads (λ service. service) result (service_of (batch, mirrors.items)) }
{
    match Edition::empty(alloc).next_with(rt, batch, workers, &Free) {
        Ok(edition) => Ok(Service {
            edition,
            mirrors: Mirrors::new(mirrors),
        }),
        Err(NextError::Refused(refused)) => Err(ReadError::Fault(refused)),
        Err(NextError::Memory) => Err(ReadError::Memory),
        Err(NextError::HistoryFull) => unreachable!(),
    }
}
