//! The declared packages, each looked for by its size.

ghost use Rattle.std.specs.Prelude.{◌∷◌, [], flat_map};
ghost use Rattle.package_files.specs.Lacking.{IsLooked, sizes_in, sizes_of};
ghost use Rattle.package_files.specs.Looking.{app_sizes, diff_sizes, edit_sizes, release_sizes};

use crate::lacking::{Lack, Lacking, PackageSizes};
use catalogue::{App, Diff, Edit, Release};
use values::Shared;

// rule: Package that a folder lacks
/// Looks for a package of a declared size.
pub fn look_for<'a, P: PackageSizes>(
    packages: &P,
    name: &'a str,
    declared: u64,
) -> Result<(), Lacking<'a>>
    ensures { IsLooked (P.sizes packages.now) ((name.now, declared) ∷ []) result }
{
    match packages.size_of(name.as_bytes()) {
        Some(found) if found == declared => Ok(()),
        Some(found) => Err(Lacking {
            name,
            lack: Lack::Size { declared, found },
        }),
        None => Err(Lacking {
            name,
            lack: Lack::Missing,
        }),
    }
}

// Looks for the package that an edit adds, if it adds one.
fn look_for_edit<'a, P: PackageSizes>(packages: &P, edit: &'a Edit) -> Result<(), Lacking<'a>>
    ensures { IsLooked (P.sizes packages.now) (edit_sizes edit.now) result }
{
    match edit {
        Edit::AddRelease(added) => look_for(packages, added.name.as_str(), added.size),
        Edit::AddDiff(added) => look_for(packages, added.name.as_str(), added.size),
        _ => Ok(()),
    }
}

// rule: Packages of a script
/// Looks for the packages that a script adds, and fails with the first one that isn't there with its size. It reads no
/// package, and takes no memory of its own.
pub fn look_for_added<'a, P: PackageSizes>(
    packages: &P,
    batch: &'a [Edit],
) -> Result<(), Lacking<'a>>
    ensures { IsLooked (P.sizes packages.now) (sizes_in batch.now) result }
{
    for edit in batch {
        match look_for_edit(packages, edit) {
            Ok(()) => {}
            Err(lacking) => return Err(lacking),
        }
    }
    Ok(())
}

fn look_for_releases<'a, P: PackageSizes>(
    packages: &P,
    releases: &'a [Release],
) -> Result<(), Lacking<'a>>
    ensures { IsLooked (P.sizes packages.now) (flat_map release_sizes releases.now) result }
{
    for release in releases {
        match look_for(packages, release.name.as_str(), release.size) {
            Ok(()) => {}
            Err(lacking) => return Err(lacking),
        }
    }
    Ok(())
}

fn look_for_diffs<'a, P: PackageSizes>(
    packages: &P,
    diffs: &'a [Shared<Diff>],
) -> Result<(), Lacking<'a>>
    ensures { IsLooked (P.sizes packages.now) (flat_map diff_sizes diffs.now) result }
{
    for shared in diffs {
        let diff = shared.get();
        match look_for(packages, diff.name.as_str(), diff.size) {
            Ok(()) => {}
            Err(lacking) => return Err(lacking),
        }
    }
    Ok(())
}

fn look_for_app<'a, P: PackageSizes>(packages: &P, app: &'a App) -> Result<(), Lacking<'a>>
    ensures { IsLooked (P.sizes packages.now) (app_sizes app.now) result }
{
    match look_for_releases(packages, app.releases.as_slice()) {
        Ok(()) => look_for_diffs(packages, app.diffs.as_slice()),
        Err(lacking) => Err(lacking),
    }
}

// rule: Package that a folder lacks
/// Looks for the packages of all apps, and fails with the first one that isn't there with its size.
///
/// They come in the order of the apps; in an app the full packages come before the differentials. It reads no package,
/// and takes no memory of its own.
pub fn look_for_apps<'a, P: PackageSizes>(packages: &P, apps: &'a [App]) -> Result<(), Lacking<'a>>
    ensures { IsLooked (P.sizes packages.now) (sizes_of apps.now) result }
{
    for app in apps {
        match look_for_app(packages, app) {
            Ok(()) => {}
            Err(lacking) => return Err(lacking),
        }
    }
    Ok(())
}
