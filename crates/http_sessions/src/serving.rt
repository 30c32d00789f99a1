ghost use Rattle.std.specs.Prelude.{◌≡◌, ◌+◌, []};
ghost use Rattle.http_desks.specs.Uses.{IsUse};
ghost use Rattle.http_sessions.specs.Sessions.{IsMemory, Serves, SessionEnds, failed_reads, failed_writes, replies, waiting, wrote};

use crate::buffers::Buffers;
use crate::ends::{Fault, Served};
use crate::session::{Session, Turn};
use http_desks::{Clock, Desk, Packages, Site};
use http_wire::{Sink, Source, Unwatched, Watch};
use std::alloc::Global;

// Advances a session message by message until it ends.
fn run<S: Source, W: Sink, D: Desk, Z: Packages + Clock + Watch>(
    mut session: Session,
    buffers: &mut Buffers,
    source: &mut S,
    sink: &mut W,
    desk: &mut D,
    site: &Z,
) -> Result<Served, Fault>
    ensures serves { Serves (IsUse (D.path desk.old) (Z.tells site.now) (Z.sizes site.now) (Z.reads site.now))
        D.steps (D.content_type desk.old) (replies session)
        (SessionEnds (S.remaining source.new) (replies session) result) (wrote result) (waiting session)
        (S.remaining source.old) (S.remaining source.new) (W.contents sink.old) (W.contents sink.new) desk.old desk.new }
    ensures reads { S.failures source.new ≡ S.failures source.old + failed_reads result }
    ensures writes { W.failures sink.new ≡ W.failures sink.old + failed_writes result }
    ensures memory { IsMemory result → ⊥ }
{
    'turns: loop {
        site.begins(session.window.bytes());
        match session.turn(buffers, source, sink, desk, site) {
            Ok(Turn::Open(next)) => session = next,
            Ok(Turn::Ended(served)) => return Ok(served),
            Err(fault) => return Err(fault),
        }
    }
}

// rule: Session
/// Serves one connection of a site, message by message, until it ends.
///
/// The site's watch is shown where each message may begin, with the bytes of it that were read with the one
/// before.
///
/// Allocates at the start alone: with `Memory` nothing was read or written. `Read` and `Write` are
/// returned only if the device failed in this call: after `Read` each whole message got its reply,
/// after `Write` a first part of the replies was written.
pub fn serve_at<S: Source, W: Sink, D: Desk, Z: Packages + Clock + Watch>(
    alloc: Global,
    source: &mut S,
    sink: &mut W,
    desk: &mut D,
    site: &Z,
) -> Result<Served, Fault>
    ensures serves { Serves (IsUse (D.path desk.old) (Z.tells site.now) (Z.sizes site.now) (Z.reads site.now))
        D.steps (D.content_type desk.old) 0
        (SessionEnds (S.remaining source.new) 0 result) (wrote result) []
        (S.remaining source.old) (S.remaining source.new) (W.contents sink.old) (W.contents sink.new) desk.old desk.new }
    ensures reads { S.failures source.new ≡ S.failures source.old + failed_reads result }
    ensures writes { W.failures sink.new ≡ W.failures sink.old + failed_writes result }
    ensures memory { IsMemory result → (source.new ≡ source.old) × (sink.new ≡ sink.old) × (desk.new ≡ desk.old) }
{
    let Ok(session) = Session::new(alloc) else {
        return Err(Fault::Memory);
    };
    let Ok(mut buffers) = Buffers::new(alloc) else {
        return Err(Fault::Memory);
    };
    run(session, &mut buffers, source, sink, desk, site)
}

/// Serves one connection with these packages and this clock, as `serve_at` does, and shows no watch.
pub fn serve<R: AllocGlobal, S: Source, W: Sink, D: Desk, P: Packages, C: Clock>(
    rt: &R,
    source: &mut S,
    sink: &mut W,
    desk: &mut D,
    packages: &P,
    clock: &C,
) -> Result<Served, Fault>
    ensures serves { Serves (IsUse (D.path desk.old) (C.tells clock.now) (P.sizes packages.now) (P.reads packages.now))
        D.steps (D.content_type desk.old) 0
        (SessionEnds (S.remaining source.new) 0 result) (wrote result) []
        (S.remaining source.old) (S.remaining source.new) (W.contents sink.old) (W.contents sink.new) desk.old desk.new }
    ensures reads { S.failures source.new ≡ S.failures source.old + failed_reads result }
    ensures writes { W.failures sink.new ≡ W.failures sink.old + failed_writes result }
    ensures memory { IsMemory result → (source.new ≡ source.old) × (sink.new ≡ sink.old) × (desk.new ≡ desk.old) }
{
    let site = Site {
        packages,
        clock,
        watch: &Unwatched,
    };
    serve_at(rt.alloc(), source, sink, desk, &site)
}
