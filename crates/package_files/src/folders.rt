// What has folders.

ghost use Rattle.std.specs.Prelude.{◌≡◌, Err, IfErr, IfOk, Ok, string_bytes};
ghost use Rattle.package_files.specs.Added.{added_in};
ghost use Rattle.package_files.specs.Descriptions.{Describes};
ghost use Rattle.package_files.specs.Findings.{AreFindings};
ghost use Rattle.catalogue.specs.Lookups.{packages_of};

use crate::comparing::{compare, compare_added};
use crate::describing::{DescribeError, describe};
use crate::finding::Finding;
use catalogue::{App, Edit};
use http_devices::Folder;
use std::alloc::{AllocError, Global};
use std::rt::Files;
use values::Items;

/// What has folders of packages: a runtime with files, or a test's stand-in for one.
pub trait Folders {
    ghost use Rattle.package_files.specs.Storages.{Storage};

    // what may be known of the files of each folder
    ghost storage: { Self → Storage };

    /// Describes the file of a name in a folder, as `package_files::describe` does.
    fn describe_in(&self, alloc: Global, folder: &str, name: &str) -> Result<String, DescribeError>
        ensures ok { IfOk result (λ text. Describes ((storage self.now).opens folder.now name.now)
            ((storage self.now).reads folder.now name.now) name.now (Ok (string_bytes text))) }
        ensures err { IfErr result (λ error. Describes ((storage self.now).opens folder.now name.now)
            ((storage self.now).reads folder.now name.now) name.now (Err error)) };

    /// Compares each declared package with its file in a folder, as `package_files::compare` does.
    fn compare_in(
        &self,
        alloc: Global,
        folder: &str,
        apps: &[App],
    ) -> Result<Items<Finding>, AllocError>
        ensures { IfOk result (λ findings. AreFindings ((storage self.now).opens folder.now)
            ((storage self.now).reads folder.now) (packages_of apps.now) findings) };

    /// Compares each package that a script adds with its file in a folder, as `package_files::compare_added` does.
    fn compare_added_in(
        &self,
        alloc: Global,
        folder: &str,
        edits: &[Edit],
    ) -> Result<Items<Finding>, AllocError>
        ensures { IfOk result (λ findings. AreFindings ((storage self.now).opens folder.now)
            ((storage self.now).reads folder.now) (added_in edits.now) findings) };
}

impl<R: Files> Folders for R {
    ghost use Rattle.std.specs.Prelude.{◌≡◌, IfSome, true};
    ghost use Rattle.http_devices.specs.Names.{is_file_name};
    ghost use Rattle.http_devices.specs.Opening.{size_of};

    // a size and bytes are those of a file of the folder
    ghost storage = { λ _. record {
      opens = λ _ name entry. IfSome (size_of entry) (λ _. is_file_name name ≡ true);
      reads = λ _ name _ _ bytes. IfSome bytes (λ _. is_file_name name ≡ true);
    } };

    fn describe_in(
        &self,
        alloc: Global,
        folder: &str,
        name: &str,
    ) -> Result<String, DescribeError> {
        let packages = Folder::new(alloc, self, folder);
        describe(alloc, &packages, name)
    }

    fn compare_in(
        &self,
        alloc: Global,
        folder: &str,
        apps: &[App],
    ) -> Result<Items<Finding>, AllocError> {
        let packages = Folder::new(alloc, self, folder);
        compare(alloc, apps, &packages)
    }

    fn compare_added_in(
        &self,
        alloc: Global,
        folder: &str,
        edits: &[Edit],
    ) -> Result<Items<Finding>, AllocError> {
        let packages = Folder::new(alloc, self, folder);
        compare_added(alloc, edits, &packages)
    }
}
