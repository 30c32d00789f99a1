// Lines of a log that are sent to its writer.

use crate::writers::Paper;
use access_logs::{LineSender, Page, open_log};
use std::alloc::Global;
use std::io::Write;

// Whether a sender accepts a line whole, also if it is lost.
fn accepts_line(sender: &mut LineSender, line: &[u8]) -> bool {
    match sender.write(line) {
        Ok(taken) => taken == line.len() && sender.flush().is_ok(),
        Err(_) => false,
    }
}

// The lines that are sent at once, each with the index of its sender.
type Lines = &'static [(usize, &'static str)];

// Sends lines; whether each is accepted.
fn send(senders: &mut [LineSender], lines: Lines) -> bool {
    let mut are_accepted = true;
    for (index, line) in lines {
        let is_accepted = match senders.get_mut(*index) {
            Some(sender) => accepts_line(sender, line.as_bytes()),
            None => false,
        };
        are_accepted = are_accepted && is_accepted;
    }
    are_accepted
}

// Writes a log of two senders with room for so many bytes each: each row at once, and the rest once they have ended.
fn write_rows(alloc: Global, bytes: usize, rows: &[Lines], paper: &mut Paper) -> Option<bool> {
    let mut log = open_log(alloc, 2, bytes).ok()?;
    let mut page = Page::new(paper);
    let mut are_accepted = true;
    for row in rows {
        are_accepted = send(&mut log.senders, row) && are_accepted;
        log.writer.write_now(&mut page);
    }
    for sender in log.senders {
        sender.finish();
    }
    let mut writer = log.writer;
    writer.write_now(&mut page);
    Some(are_accepted)
}

// Whether the log of rows is so, over a disk with so much room that fails so often then.
fn logs(
    alloc: Global,
    bytes: usize,
    rows: &[Lines],
    room: usize,
    fails: usize,
    wanted: &str,
) -> Option<bool> {
    let mut paper = Paper {
        bytes: Vec::new(alloc),
        room,
        fails,
    };
    let are_accepted = write_rows(alloc, bytes, rows, &mut paper)?;
    Some(are_accepted && paper.bytes.as_slice() == wanted.as_bytes())
}

// How many bytes there is room for, what is sent at once, the room of the disk and how often it fails then, and the log.
const LOGS: [(usize, &[Lines], (usize, usize), &str); 4] = [
    // the lines of two senders are whole
    (
        12,
        &[
            &[(0, "a one\n"), (1, "b one\n"), (0, "a two\n")],
            &[(1, "b two\n")],
        ],
        (0, 0),
        "a one\na two\nb one\nb two\n",
    ),
    // lost lines are counted before the next one
    (
        46,
        &[
            &[
                (0, "0123456789abcdef\n"),
                (0, "0123456789abcdef\n"),
                (0, "0123456789abcdef\n"),
                (0, "a\n"),
            ],
            &[(0, "b\n"), (0, "c\n")],
        ],
        (0, 0),
        "0123456789abcdef\n0123456789abcdef\nomaha: lines of the log that were lost: 2\nb\nc\n",
    ),
    // lines that are lost last are counted at the end
    (
        17,
        &[&[
            (0, "0123456789abcdef\n"),
            (1, "short\n"),
            (0, "0123456789abcdef\n"),
            (0, "a\n"),
            (1, "b\n"),
        ]],
        (0, 0),
        "0123456789abcdef\nshort\nb\nomaha: lines of the log that were lost: 2\n",
    ),
    // a full disk joins no lines
    (
        64,
        &[&[(0, "first\n")], &[(0, "second\n")]],
        (3, 1),
        "fir\nsecond\n",
    ),
];

// rule: Line that is sent
// rule: Note of lost lines
// rule: Written log
#[test]
fn sent_lines_are_written_whole_or_counted(rt: HostRuntime) {
    for (bytes, rows, (room, fails), wanted) in LOGS {
        let is_so = logs(rt.alloc(), bytes, rows, room, fails, wanted);
        assert!(rt; is_so == Some(true), "{wanted}");
    }
}
