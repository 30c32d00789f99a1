ghost use Rattle.std.specs.Prelude.{◌≡◌, ◌+◌, ℕ, length, is_ok, if◌then◌else◌};
ghost use Rattle.http_desks.specs.Begins.{BeginsFetch, Rests};

use crate::answering::{Begun, Handled};
use crate::download::send_package;
use crate::package::Packages;
use http_wire::{Failed, ReplyHead, Sink, Status, send_reply};
use values::Declared;

// Sends a package after its head.
pub(crate) fn send_rest<W: Sink, P: Packages>(
    sink: &mut W,
    block: &mut [u8],
    packages: &P,
    name: &[u8],
    declared: &Declared,
) -> Result<Handled, Failed>
    requires { length block.old ≡ 65536 }
    ensures rests { Rests (P.reads packages.now name.now) declared.now (W.contents sink.old) (W.contents sink.new) result }
    ensures failed { W.failures sink.new ≡ W.failures sink.old + (if is_ok result then 0 else 1) }
{
    match send_package(sink, block, packages, name, declared.size, &declared.hash) {
        Ok(true) => Ok(Handled::Answered),
        Ok(false) => Ok(Handled::Cut),
        Err(error) => Err(error),
    }
}

// rule: Reply to a message
// Writes the head of a package, whose file is to have the declared length. One without bytes is then sent.
pub(crate) fn begin_fetch<'n, W: Sink, P: Packages>(
    sink: &mut W,
    block: &mut [u8],
    packages: &P,
    name: &'n [u8],
    declared: &Declared,
    closes: bool,
) -> Result<Begun<'n>, Failed>
    requires { length block.old ≡ 65536 }
    ensures fetches { BeginsFetch (P.sizes packages.now name.now) (P.reads packages.now name.now) name.now declared.now closes
        (W.contents sink.old) (W.contents sink.new) result }
    ensures failed { W.failures sink.new ≡ W.failures sink.old + (if is_ok result then 0 else 1) }
{
    let size = packages.size(name);
    let head = ReplyHead {
        status: Status::Success,
        kind: "application/octet-stream",
        allow: None,
        size: declared.size as usize,
        closes,
    };
    match send_reply(sink, block, &head, b"") {
        Ok(()) => {}
        Err(error) => return Err(error),
    }
    if size != Some(declared.size) {
        return Ok(Begun::Done(Handled::Cut));
    }
    if declared.size > 0 {
        return Ok(Begun::Sends(name, *declared));
    }
    match send_rest(sink, block, packages, name, declared) {
        Ok(handled) => Ok(Begun::Done(handled)),
        Err(error) => Err(error),
    }
}
