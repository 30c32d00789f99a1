//! The declared packages, each compared with its file.

ghost use Rattle.std.specs.Prelude.{◌≡◌, ◌∷◌, [], IfOk, OnOk, length, map};
ghost use Rattle.catalogue.specs.Lookups.{diff_package, full_package, packages_in, packages_of};
ghost use Rattle.catalogue.specs.Forms.{hash_named};
ghost use Rattle.package_files.specs.Added.{added_by, added_in};
ghost use Rattle.package_files.specs.Findings.{Adds, AreBytes, AreFindings, IsFound};

use crate::finding::{Finding, Mismatch};
use crate::hashing::hash_package;
use catalogue::form::hash_named;
use catalogue::{App, Declared, Diff, Edit, Release};
use http_desks::{BLOCK, Packages};
use http_devices::{Entry, OpenPackages};
use std::alloc::{AllocError, Global};
use values::{Items, Shared, Text};

// How the bytes of a file of the declared size differ, if they do.
fn compare_bytes<P: Packages>(
    packages: &P,
    block: &mut [u8],
    name: &[u8],
    declared: Declared,
) -> Option<Mismatch>
    requires { length block.old ≡ 65536 }
    ensures { AreBytes (P.reads packages.now name.now) declared result }
{
    match hash_package(packages, block, name, declared.size) {
        None => Some(Mismatch::Unreadable),
        Some(hash) if hash == declared.hash => None,
        Some(_) => Some(Mismatch::Hash),
    }
}

// rule: File of a package
// How the file of a declared package differs, if it does.
fn find_mismatch<P: Packages + OpenPackages>(
    packages: &P,
    block: &mut [u8],
    name: &[u8],
    declared: Declared,
) -> Result<Option<Mismatch>, AllocError>
    requires { length block.old ≡ 65536 }
    ensures { IfOk result (λ differs.
        IsFound (P.opens packages.now name.now) (P.reads packages.now name.now) declared differs) }
{
    match packages.open(name)? {
        Entry::File(size) if size != declared.size => Ok(Some(Mismatch::Size {
            size,
            declared: declared.size,
        })),
        Entry::File(_) => Ok(compare_bytes(packages, block, name, declared)),
        Entry::Missing => Ok(Some(Mismatch::Missing)),
        Entry::NotRegular => Ok(Some(Mismatch::NotRegular)),
        Entry::Unreadable => Ok(Some(Mismatch::Unreadable)),
    }
}

// Adds the finding of a package, if there is one.
fn compare_package<P: Packages + OpenPackages>(
    alloc: Global,
    packages: &P,
    block: &mut [u8],
    name: &str,
    declared: Declared,
    findings: &mut Items<Finding>,
) -> Result<(), AllocError>
    requires { length block.old ≡ 65536 }
    ensures { OnOk result (Adds (P.opens packages.now) (P.reads packages.now)
        ((name.now, declared) ∷ []) findings.old findings.new) }
{
    match find_mismatch(packages, block, name.as_bytes(), declared) {
        Err(refused) => Err(refused),
        Ok(None) => Ok(()),
        Ok(Some(mismatch)) => {
            let name = Text::copy_of(alloc, name)?;
            findings.push(Finding { name, mismatch })
        }
    }
}

fn compare_releases<P: Packages + OpenPackages>(
    alloc: Global,
    packages: &P,
    block: &mut [u8],
    releases: &[Release],
    findings: &mut Items<Finding>,
) -> Result<(), AllocError>
    requires { length block.old ≡ 65536 }
    ensures { OnOk result (Adds (P.opens packages.now) (P.reads packages.now)
        (map full_package releases.now) findings.old findings.new) }
{
    for release in releases {
        let declared = Declared {
            size: release.size,
            hash: release.hash,
        };
        compare_package(
            alloc,
            packages,
            block,
            release.name.as_str(),
            declared,
            findings,
        )?;
    }
    Ok(())
}

fn compare_diffs<P: Packages + OpenPackages>(
    alloc: Global,
    packages: &P,
    block: &mut [u8],
    diffs: &[Shared<Diff>],
    findings: &mut Items<Finding>,
) -> Result<(), AllocError>
    requires { length block.old ≡ 65536 }
    ensures { OnOk result (Adds (P.opens packages.now) (P.reads packages.now)
        (map diff_package diffs.now) findings.old findings.new) }
{
    for shared in diffs {
        let diff = shared.get();
        let declared = Declared {
            size: diff.size,
            hash: diff.hash,
        };
        compare_package(
            alloc,
            packages,
            block,
            diff.name.as_str(),
            declared,
            findings,
        )?;
    }
    Ok(())
}

fn compare_app<P: Packages + OpenPackages>(
    alloc: Global,
    packages: &P,
    block: &mut [u8],
    app: &App,
    findings: &mut Items<Finding>,
) -> Result<(), AllocError>
    requires { length block.old ≡ 65536 }
    ensures { OnOk result (Adds (P.opens packages.now) (P.reads packages.now)
        (packages_in app.now) findings.old findings.new) }
{
    compare_releases(alloc, packages, block, app.releases.as_slice(), findings)?;
    compare_diffs(alloc, packages, block, app.diffs.as_slice(), findings)?;
    Ok(())
}

fn compare_apps<P: Packages + OpenPackages>(
    alloc: Global,
    packages: &P,
    block: &mut [u8],
    apps: &[App],
    findings: &mut Items<Finding>,
) -> Result<(), AllocError>
    requires { length block.old ≡ 65536 }
    ensures { OnOk result (Adds (P.opens packages.now) (P.reads packages.now)
        (packages_of apps.now) findings.old findings.new) }
{
    for app in apps {
        compare_app(alloc, packages, block, app, findings)?;
    }
    Ok(())
}

// What is declared of a package that is added.
fn declared_as(size: u64, sha256: &str) -> Declared
    ensures { result ≡ record { size = size; hash = hash_named sha256.now } }
{
    Declared {
        size,
        hash: hash_named(sha256),
    }
}

// Adds the finding of the package that an edit adds, if there is one.
fn compare_edit<P: Packages + OpenPackages>(
    alloc: Global,
    packages: &P,
    block: &mut [u8],
    edit: &Edit,
    findings: &mut Items<Finding>,
) -> Result<(), AllocError>
    requires { length block.old ≡ 65536 }
    ensures { OnOk result (Adds (P.opens packages.now) (P.reads packages.now)
        (added_by edit.now) findings.old findings.new) }
{
    match edit {
        Edit::AddRelease(added) => {
            let declared = declared_as(added.size, added.sha256.as_str());
            let name = added.name.as_str();
            compare_package(alloc, packages, block, name, declared, findings)
        }
        Edit::AddDiff(added) => {
            let declared = declared_as(added.size, added.sha256.as_str());
            let name = added.name.as_str();
            compare_package(alloc, packages, block, name, declared, findings)
        }
        _ => Ok(()),
    }
}

fn compare_edits<P: Packages + OpenPackages>(
    alloc: Global,
    packages: &P,
    block: &mut [u8],
    edits: &[Edit],
    findings: &mut Items<Finding>,
) -> Result<(), AllocError>
    requires { length block.old ≡ 65536 }
    ensures { OnOk result (Adds (P.opens packages.now) (P.reads packages.now)
        (added_in edits.now) findings.old findings.new) }
{
    for edit in edits {
        compare_edit(alloc, packages, block, edit, findings)?;
    }
    Ok(())
}

// rule: Packages of a script
/// Compares the file of each package that a script adds with its size and its SHA-256.
///
/// Returns a finding for each file that differs, in the order of the edits, as `compare` does. A SHA-256 that isn't 64
/// lower-case hexadecimal digits counts as 32 zeros. At most 65536 bytes of a package are held. Out of memory is the only
/// error.
pub fn compare_added<P: Packages + OpenPackages>(
    alloc: Global,
    edits: &[Edit],
    packages: &P,
) -> Result<Items<Finding>, AllocError>
    ensures { IfOk result (λ findings. AreFindings (P.opens packages.now) (P.reads packages.now)
        (added_in edits.now) findings) }
{
    let mut block = vec![in alloc; 0; BLOCK as usize]?;
    let mut findings = Items::empty(alloc);
    compare_edits(alloc, packages, &mut block, edits, &mut findings)?;
    Ok(findings)
}

// rule: Findings of a catalogue
/// Compares the file of each declared package with its size and its SHA-256.
///
/// Returns a finding for each file that differs, in the order of the apps; in an app the full packages come
/// before the differentials. No finding means that all files agree. At most 65536 bytes of a package are
/// held. Out of memory is the only error.
pub fn compare<P: Packages + OpenPackages>(
    alloc: Global,
    apps: &[App],
    packages: &P,
) -> Result<Items<Finding>, AllocError>
    ensures { IfOk result (λ findings. AreFindings (P.opens packages.now) (P.reads packages.now)
        (packages_of apps.now) findings) }
{
    let mut block = vec![in alloc; 0; BLOCK as usize]?;
    let mut findings = Items::empty(alloc);
    compare_apps(alloc, packages, &mut block, apps, &mut findings)?;
    Ok(findings)
}
