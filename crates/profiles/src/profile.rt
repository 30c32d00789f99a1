// The service of a profile's file.

ghost use Rattle.std.specs.Prelude.{IfErr, IfOk, Some};
ghost use Rattle.profiles.specs.Profiles.{IsMade, IsServed, IsUnread, max_profile, service_of_bytes};
ghost use Rattle.streams.specs.Reading.{IsWhole};

use failures::Failure;
use profile_toml::{laws, read_profile};
use service_desks::{Service, builtin_service, make_service};
use std::alloc::Global;
use std::thread::Threads;
use streams::{Disk, ReadFailure};
use values::Text;

/// How many bytes a profile may have: 256 MiB.
pub const MAX_PROFILE: u32 = 268435456;

// rule: Service of a profile
/// Makes the service of a profile.
///
/// Fails with the profile's first fault, as `profile_toml::read_profile` does; else with the first of its edits that
/// the empty catalogue rejects. `workers` threads make the tables, from 1 to 16; fewer or more count as these.
pub fn read_service<R: Threads + Sync>(
    rt: &R,
    alloc: Global,
    profile: &[u8],
    workers: usize,
) -> Result<Service, Failure>
    ensures { IsMade (service_of_bytes profile.now) result }
{
    laws::mirrors();
    let (batch, mirrors) = read_profile(alloc, profile)?;
    let workers = workers.max(1).min(16);
    Ok(make_service(rt, alloc, batch, mirrors, workers)?)
}

// rule: Maximum of a profile
/// Reads a profile's file.
///
/// The profile may have 256 MiB. Fails with the file if it can't be read or is longer; what it says isn't looked at.
pub fn read_named<R: Disk + AllocGlobal>(rt: &R, path: &Text) -> Result<Vec<u8>, Failure>
    ensures ok { IfOk result (λ bytes. IsWhole (R.file_at rt.now path.now) max_profile bytes.items) }
    ensures err { IfErr result (IsUnread (R.file_at rt.now) path.now) }
{
    match rt.read_file(rt.alloc(), path.as_str(), MAX_PROFILE) {
        Ok(bytes) => Ok(bytes),
        Err(ReadFailure::Memory) => Err(Failure::Memory),
        Err(_) => Err(Failure::File(path.clone()?)),
    }
}

/// Makes the service of a profile that was read from the file at a path, by so many threads.
///
/// Fails as `read_service` does. `workers` is from 1 to 16; fewer or more count as these.
pub fn service_in<R: Disk + AllocGlobal + Threads + Sync>(
    rt: &R,
    path: &Text,
    profile: &[u8],
    workers: usize,
) -> Result<Service, Failure>
    requires { IsWhole (R.file_at rt.now path.now) max_profile profile.now }
    ensures made { IsMade (service_of_bytes profile.now) result }
    ensures served { IsServed (R.file_at rt.now) (Some path.now) result }
{
    read_service(rt, rt.alloc(), profile, workers)
}

/// Makes the service of a profile's file by so many threads, from 1 to 16. Fails as `open_service` does.
pub fn open_profile<R: Disk + AllocGlobal + Threads + Sync>(
    rt: &R,
    path: &Text,
    workers: usize,
) -> Result<Service, Failure>
    ensures { IsServed (R.file_at rt.now) (Some path.now) result }
{
    match read_named(rt, path) {
        Ok(bytes) => service_in(rt, path, bytes.as_slice(), workers),
        Err(unread) => Err(unread),
    }
}

/// Makes what requests are replied to from: the service of the profile's file, if one is named, or the built-in one.
///
/// Fails, in this order, with the file, the profile's first fault, and its first rejected edit. `workers` threads make the
/// tables, from 1 to 16; fewer or more count as these.
pub fn open_service<R: Disk + AllocGlobal + Threads + Sync>(
    rt: &R,
    profile: &Option<Text>,
    workers: usize,
) -> Result<Service, Failure>
    ensures { IsServed (R.file_at rt.now) profile.now result }
{
    match profile {
        Some(path) => open_profile(rt, path, workers),
        None => Ok(builtin_service(rt.alloc())?),
    }
}
