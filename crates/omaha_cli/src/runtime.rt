// What a run needs of its runtime.

use advice::Looks;
use package_files::Folders;
use std::sync::Wait;
use std::thread::Threads;
use std::time::Clock;
use streams::Disk;
use update_client::Connector;

/// What `run` needs of its runtime, for callers that are generic over it.
///
/// Such a caller has this bound and not those that the traits are implemented by, as `Net` and `Files`: the borrow
/// checker follows a runtime to other threads by its own bounds.
pub trait Runtime: Disk
    + Folders
    + Clock
    + Connector
    + Looks
    + AllocGlobal
    + Threads
    + Sync
    + Wait {}

impl<R: Disk + Folders + Clock + Connector + Looks + AllocGlobal + Threads + Sync + Wait> Runtime
    for R {}
