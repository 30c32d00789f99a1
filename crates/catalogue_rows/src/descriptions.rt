// Descriptions of files.

use crate::shelf::RowFolder;
use package_files::describe;
use std::alloc::Global;

// What is described of a file, with `~` for the ends of lines, or why it isn't.
fn print_described(alloc: Global, packages: &RowFolder, name: &str) -> Option<String> {
    match describe(alloc, packages, name) {
        Ok(lines) => lines.as_str().replace(alloc, "\n", "~").ok(),
        Err(error) => format!(in alloc; "{error}").ok(),
    }
}

const FILES: &str =
    "a-1.bin=a10 a-3.bin=a65537 empty=a0 huge=a1099511627777 max=a1099511627776!0 folder=folder closed=closed memory=memory cut=a65537!65536 gone=a1!0 .a=a1 a,b=a1";

/// The same of a file in memory.
pub(crate) fn print_description(alloc: Global, name: &str) -> Option<String> {
    print_described(alloc, &RowFolder::new(alloc, FILES)?, name)
}
