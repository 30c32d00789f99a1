//! The files of a catalogue's packages, compared with what the catalogue declares.
//!
//! `compare` returns a finding for each declared package whose file is missing, is no regular one, has another
//! size or another SHA-256, or couldn't be read. `describe` writes what a profile says of a file: its name, its size
//! and its SHA-256. Both open any `OpenPackages`, and read them in blocks of 65536 bytes. Read `specs/Hashing.antt`,
//! `specs/Findings.antt` and `specs/Descriptions.antt`.
//!
//! `Folders` opens folders of packages. `describe_path` describes a file that is named by its path, and
//! `findings_string` writes findings, a line each. Read `specs/Storages.antt`, then `specs/Paths.antt` and
//! `specs/FindingLines.antt`.
//!
//! `look_for_added` looks for the packages that a script adds, and `look_for_apps` for those of a catalogue, by their sizes
//! alone; `look_for` looks for one package. Read `specs/Added.antt` and `specs/Lacking.antt`.
//!
//! It reads files alone: it opens no profile, prints nothing, and doesn't look for files that the catalogue
//! doesn't declare.

#![tactic(auto)]

mod comparing;
mod describing;
mod finding;
mod findings;
mod folders;
mod hashing;
mod lacking;
mod looking;
mod paths;

pub use crate::comparing::{compare, compare_added};
pub use crate::describing::{DescribeError, describe};
pub use crate::finding::{Finding, Mismatch};
pub use crate::findings::findings_string;
pub use crate::folders::Folders;
pub use crate::lacking::{Lack, Lacking, PackageSizes};
pub use crate::looking::{look_for, look_for_added, look_for_apps};
pub use crate::paths::describe_path;
