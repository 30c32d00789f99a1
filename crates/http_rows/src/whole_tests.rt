// What is read or written whole unless a call fails.

use crate::scripted::Scripted;
use crate::writers::Paper;
use std::alloc::Global;
use streams::{ReadFailure, ReadWhole, WriteWhole};

// A row is a script, and what comes of reading at most 64 bytes by its calls: how many they are, or why there are none.
const READS: &str = "\
|0
3i5|8
88888888|64
88888888i1|too long
f|broken
1f|broken
1111111111111111111111111111111111111111f|broken
88888888f|broken
m|memory
1m|memory
1111111111111111111111111111111111111111m|memory";

fn is_read(alloc: Global, row: &str) -> bool {
    let (script, wanted) = row.split_once('|').unwrap_or((row, ""));
    let mut reader = Scripted {
        left: script.as_bytes(),
    };
    match reader.read_whole(alloc, 64) {
        Ok(bytes) => wanted.parse() == Ok(bytes.len()),
        Err(ReadFailure::Broken) => wanted == "broken",
        Err(ReadFailure::TooLong) => wanted == "too long",
        Err(ReadFailure::Memory) => wanted == "memory",
    }
}

// rule: Reading up to a maximum
#[test]
fn reads_all_bytes_or_says_why_there_are_none(rt: HostRuntime) {
    for row in READS.lines() {
        assert!(rt; is_read(rt.alloc(), row), "{row}");
    }
}

const LINE: &[u8] = b"a line that is written whole, or a first part of it\n";

// Whether the disk with so much room gets the line, or as much of it as there is room for, and that is reported.
fn is_written(alloc: Global, room: usize) -> bool {
    let mut paper = Paper {
        bytes: Vec::new(alloc),
        room,
        fails: 1,
    };
    let is_ok = paper.write_whole(LINE).is_ok();
    is_ok == (room == LINE.len()) && paper.bytes.as_slice() == &LINE[..room.min(LINE.len())]
}

// rule: Writing whole
#[test]
fn reports_each_place_where_a_write_fails(rt: HostRuntime) {
    for room in 0..LINE.len() {
        assert!(rt; is_written(rt.alloc(), room), "{room} bytes");
    }
    assert!(rt; is_written(rt.alloc(), LINE.len()));
}
