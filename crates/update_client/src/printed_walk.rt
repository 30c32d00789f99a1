//! A walk with a line for each step.

ghost use Rattle.update_client.specs.Walking.{IsWalk};

use crate::client::Client;
use crate::fault::Fault;
use crate::keeper::Keeper;
use crate::link::Link;
use crate::walking::Walk;
use std::alloc::Global;
use streams::WriteWhole;
use values::ReadError;

/// How many bytes of a download are read at once.
const BLOCK: usize = 65536;

// rule: Printed walk
/// Walks a client along a server's offers by `Client::walk`, and prints a line for each step.
///
/// The installer of the walk keeps no files. It prints the line of a step when the step's file was found to be what was
/// offered, and commits the step then. Errors are those of `Client::walk`; `Install` says that a line couldn't be
/// printed. The lines of the steps that were committed stay, and after `Install` perhaps a first part of one more.
pub fn walk_app<L: Link, W: WriteWhole>(
    alloc: Global,
    client: &mut Client,
    link: &mut L,
    out: &mut W,
) -> Result<Walk, ReadError<Fault>>
    ensures { IsWalk client.old client.new (L.posts link.old) (L.posts link.new) (L.opened link.old)
        (L.opened link.new) (L.received link.new) (L.ended link.new) (W.output out.old)
        (W.output out.new) result }
{
    let mut block = vec![in alloc; 0; BLOCK]?;
    let mut keeper = Keeper::new(alloc, out);
    let walked = client.walk(alloc, link, &mut keeper, &mut block);
    let Keeper {
        alloc: _,
        out,
        printed: _,
        staged: _,
        commits: _,
        rejected: _,
    } = keeper;
    // No effect at run time. The proof reads what is printed from this use of `out`.
    let _ = &*out;
    walked
}
