// Rows of one string, and the first that is wrong.

ghost use Rattle.std.specs.Prelude.{◌≡◌, ℕ};
ghost use Rattle.http_ports.specs.Traffic.{unused};
ghost use Rattle.http_memory.specs.Seats.{accepted_in, slots_of};

use crate::desks::{Echo, FILES};
use crate::peers::{are_as_said, script_of};
use http_memory::Script;
use http_ports::{Port, run};
use http_sessions::{Buffers, Talk, Talks};
use std::sync::Wait;

// Serves the peers of a script that has two slots; for how many memory ran out.
fn serve<R: Wait + AllocGlobal>(rt: &R, room: &mut Buffers, script: &mut Script) -> Option<u64>
    requires fresh { (k : ℕ) → slots_of script.old.seats.items k ≡ unused }
    requires none { accepted_in script.old.seats.items ≡ 0 }
{
    if script.terms.capacity != 2 {
        return None;
    }
    let alloc = rt.alloc();
    let files = FILES;
    let talks = Talks {
        alloc,
        site: &files,
    };
    let mut desk = Echo { alloc };
    let mut conns: [Option<Talk>; 2] = [None, None];
    Some(run(
        rt,
        script,
        &talks,
        room,
        &mut [0; 4096],
        &mut conns,
        &mut desk,
    ))
}

// Whether what a row says is so.
fn is_so<R: Wait + AllocGlobal>(
    rt: &R,
    room: &mut Buffers,
    piece: usize,
    order: u32,
    row: &str,
) -> Option<bool> {
    let mut script = script_of(rt.alloc(), row, piece, order)?;
    let lost = serve(rt, room, &mut script);
    let is_said = are_as_said(&script, rt.alloc(), row) == Some(true);
    Some(lost == Some(0) && is_said)
}

/// The first of rows that is wrong, over pieces of this length and turns in this order; empty if there is none.
pub(crate) fn wrong_row<'a, R: Wait + AllocGlobal>(
    rt: &R,
    room: &mut Buffers,
    piece: usize,
    order: u32,
    rows: &'a str,
) -> &'a str {
    for row in rows.lines() {
        if is_so(rt, room, piece, order, row) != Some(true) {
            return row;
        }
    }
    ""
}
