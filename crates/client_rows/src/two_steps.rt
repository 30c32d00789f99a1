// A client that walks from nothing to 2.0 in two steps.

ghost use Rattle.std.specs.Prelude.{◌≡◌, []};

use crate::played::Played;
use crate::shelf::Shelf;
use std::alloc::Global;
use update_client::{Client, Fault, Walk};
use values::ReadError;

// The replies to a client after so many steps, and the bodies of its downloads.
const REPLIES: [(&str, &str); 3] = [
    (
        "1 offer s:7 1.0 a- abc;1 offer s:7 2.0 b- abcd*14 abcdefghijk;1 check noupdate",
        "abc abcdefghijk",
    ),
    (
        "1 offer s:7 2.0 b- abcd*14 abcdefghijk;1 check noupdate",
        "abcdefghijk",
    ),
    ("1 check noupdate", ""),
];

// The commits of both steps, and where they begin and end.
const COMMITS: &str = "full 1.0 a-0 3;diff 2.0 b-0 11;";

const ENDS: [usize; 3] = [0, 15, 31];

// How many steps a client has made.
fn steps_of(client: &Client) -> usize {
    match client.version() {
        "0" => 0,
        "1.0" => 1,
        _ => 2,
    }
}

// The commits between two counts of steps.
fn commits_between(start: usize, end: usize) -> Option<&'static str> {
    COMMITS.get(*ENDS.get(start)?..*ENDS.get(end)?)
}

// What a walk came to: `whole`, the device that failed, or another word.
fn end_of(walked: Result<Walk, ReadError<Fault>>) -> &'static str {
    match walked {
        Ok(_) => "whole",
        Err(ReadError::Fault(Fault::Link)) => "link",
        Err(ReadError::Fault(Fault::Install)) => "installer",
        Err(ReadError::Memory) => "memory",
        Err(_) => "another fault",
    }
}

// What a walk of a client comes to over a link and an installer that fails at the call after so many; and whether the
// commits are those that lead to its version and nothing is staged.
fn walk_over(
    alloc: Global,
    client: &mut Client,
    link: &mut Played<'_>,
    calls: u64,
) -> (&'static str, bool) {
    let start = steps_of(client);
    let mut shelf = Shelf::new(alloc, calls);
    let walked = client.walk(alloc, link, &mut shelf, &mut [0; 4096]);
    let commits = commits_between(start, steps_of(client));
    let is_kept = shelf.staged.is_empty() && commits == Some(shelf.log.as_str());
    (end_of(walked), is_kept)
}

/// What a walk of a client comes to in reads of at most `piece` bytes, over a link and an installer that each fail at the
/// call after so many: `whole`, the device that failed, or another word; and whether the commits are those that lead to its
/// version and nothing is staged.
pub(crate) fn walk_in_pieces(
    alloc: Global,
    client: &mut Client,
    piece: usize,
    link_calls: u64,
    installer_calls: u64,
) -> (&'static str, bool) {
    let (replies, bodies) = REPLIES.get(steps_of(client)).copied().unwrap_or(("", ""));
    let mut link = Played::new(alloc, replies, bodies, piece, link_calls);
    walk_over(alloc, client, &mut link, installer_calls)
}
