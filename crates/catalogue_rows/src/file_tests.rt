use crate::descriptions::print_description;
use crate::findings::print_findings;
use crate::shelf::RowFolder;
use fixtures::{is_line, two_parts};
use std::alloc::Global;

// What is found in the files of a row.
fn print_found(alloc: Global, files: &'static str) -> Option<String> {
    print_findings(alloc, &RowFolder::new(alloc, files)?)
}

// Whether what is found is what a row wants.
fn is_found(alloc: Global, row: &'static str) -> bool {
    let (files, wanted) = two_parts(row, " = ");
    is_line(print_found(alloc, files), wanted)
}

// Whether what is described of a name is what a row wants.
fn is_described(alloc: Global, row: &'static str) -> bool {
    let (name, wanted) = two_parts(row, " = ");
    is_line(print_description(alloc, name), wanted)
}

// A row is the files that there are, and what is found.
const ROWS: &str = "\
a-1.bin=a10 a-2.bin=a65536 a-3.bin=a65537 a-1-2.bin=a3 b-1.bin=a1 = 
a-1.bin=a10 a-2.bin=a65536 a-3.bin=a65537 a-1-2.bin=a3 b-1.bin=a1 other.bin=b7 = 
none=a1 = a-1.bin: missing;a-2.bin: missing;a-3.bin: missing;a-1-2.bin: missing;b-1.bin: missing;
a-1.bin=a10 a-2.bin=a65536 a-1-2.bin=a3 = a-3.bin: missing;b-1.bin: missing;
a-1.bin=a9 a-2.bin=a65537 a-3.bin=a0 a-1-2.bin=a3 b-1.bin=b2 = a-1.bin: size 9, declared 10;a-2.bin: size 65537, declared 65536;a-3.bin: size 0, declared 65537;b-1.bin: size 2, declared 1;
a-1.bin=b10 a-2.bin=b65536 a-3.bin=b65537 a-1-2.bin=a3 b-1.bin=a1 = a-1.bin: sha256 differs;a-2.bin: sha256 differs;a-3.bin: sha256 differs;
a-1.bin=a10!9 a-2.bin=a65536!0 a-3.bin=a65537!65536 a-1-2.bin=a3!3 b-1.bin=a1!1 = a-1.bin: unreadable;a-2.bin: unreadable;a-3.bin: unreadable;
a-1.bin=b11!0 a-2.bin=b65536 a-3.bin=b65537!0 b-1.bin=a1 = a-1.bin: size 11, declared 10;a-2.bin: sha256 differs;a-3.bin: unreadable;a-1-2.bin: missing;
a-1.bin=folder a-2.bin=closed a-3.bin=a65537 a-1-2.bin=closed b-1.bin=folder = a-1.bin: not a regular file;a-2.bin: unreadable;a-1-2.bin: unreadable;b-1.bin: not a regular file;
a-1.bin=a10 a-2.bin=memory = memory";

// rule: File of a package
// rule: Findings of a catalogue
#[test]
fn finds_the_files_that_differ(rt: HostRuntime) {
    for row in ROWS.lines() {
        assert!(rt; is_found(rt.alloc(), row), "{row}");
    }
}

// A row is a name, and what is described of its file, `~` being the end of a line, or why it isn't.
const DESCRIPTIONS: &str = "\
a-1.bin = name = \"a-1.bin\"~size = 10~sha256 = \"bf2cb58a68f684d95a3b78ef8f661c9a4e5b09e82cc8f9cc88cce90528caeb27\"~
a-3.bin = name = \"a-3.bin\"~size = 65537~sha256 = \"008ffc88d3c96a9f307524eb361e47c5222a887fc45fa0c1fb8d429c5c23b430\"~
a-2.bin = missing
folder = not a regular file
closed = unreadable
memory = memory
empty = size 0, allowed 1 to 1099511627776
huge = size 1099511627777, allowed 1 to 1099511627776
max = unreadable
cut = unreadable
gone = unreadable
.a = no package name
a,b = no package name
inner/a-1.bin = no package name
 = no package name";

// rule: Description of a file
// rule: Hash of a file
#[test]
fn describes_a_file_as_a_profile_does(rt: HostRuntime) {
    for row in DESCRIPTIONS.lines() {
        assert!(rt; is_described(rt.alloc(), row), "{row}");
    }
}
