ghost use Rattle.std.specs.Prelude.{◌≡◌, ◌+◌, ℕ, length, Some, is_ok, if◌then◌else◌};
ghost use Rattle.http_desks.specs.Begins.{Begins, done_of};
ghost use Rattle.http_desks.specs.Replies.{Answers, kind_for};
ghost use Rattle.http_desks.specs.Uses.{IsAsked, IsRouted, IsUse, is_asked};

use crate::clock::Clock;
use crate::desk::Desk;
use crate::empty::send_empty;
use crate::fetching::{begin_fetch, send_rest};
use crate::method::Method;
use crate::package::Packages;
use crate::showing::{deny, show};
use http_wire::{Allow, Failed, ReplyHead, Sink, Status, package_name, path_of, send_reply};
use values::Declared;

/// How a reply came out.
#[derive(Clone, Copy, Drop)]
pub enum Handled {
    /// It is whole, and the connection may go on.
    Answered,
    /// It says that the desk is off.
    Off,
    /// A package that is not whole.
    Cut,
}

/// How a reply begins.
#[derive(Clone, Copy, Drop)]
pub enum Begun<'n> {
    /// It is written, and came out so.
    Done(Handled),
    /// The head of the package of this name is written. The package has bytes, and its file the declared length.
    Sends(&'n [u8], Declared),
}

/// A whole message.
#[derive(Clone, Copy, Drop)]
pub struct Request<'a> {
    /// The method.
    pub method: Method,
    /// The target, with its query.
    pub target: &'a [u8],
    /// The body.
    pub body: &'a [u8],
    /// Whether the connection ends after the reply.
    pub closes: bool,
}

// The type of the body, if it has any bytes.
fn type_for<'a>(kind: &'a str, body: &[u8]) -> &'a str
    ensures { result.now ≡ kind_for kind.now body.now }
{
    if body.is_empty() { "" } else { kind }
}

// rule: Calls of a desk
// Asks the desk, and writes its reply.
fn ask<W: Sink, D: Desk, C: Clock>(
    sink: &mut W,
    block: &mut [u8],
    desk: &mut D,
    clock: &C,
    body: &[u8],
    closes: bool,
) -> Result<Handled, Failed>
    ensures asked { Answers (IsAsked (C.tells clock.now)) D.steps (D.content_type desk.old) body.now closes
        desk.old desk.new (W.contents sink.old) (W.contents sink.new) result }
    ensures path { D.path desk.new ≡ D.path desk.old }
    ensures content_type { D.content_type desk.new ≡ D.content_type desk.old }
    ensures failed { W.failures sink.new ≡ W.failures sink.old + (if is_ok result then 0 else 1) }
{
    let moment = clock.now();
    match desk.answer(body, moment) {
        Ok(answer) => {
            let head = ReplyHead {
                status: answer.status.status(),
                kind: type_for(desk.content_type(), &answer.body),
                allow: None,
                size: answer.body.len(),
                closes,
            };
            match send_reply(sink, block, &head, &answer.body) {
                Ok(()) => Ok(Handled::Answered),
                Err(error) => Err(error),
            }
        }
        Err(off) => match send_empty(sink, block, Status::InternalServerError, None, true) {
            Ok(()) => Ok(Handled::Off),
            Err(error) => Err(error),
        },
    }
}

// Begins the reply to a message for the package of this name, if the desk knows it and the method is GET.
fn take<'n, W: Sink, D: Desk, P: Packages>(
    sink: &mut W,
    block: &mut [u8],
    desk: &mut D,
    packages: &P,
    name: &'n [u8],
    request: &Request<'_>,
) -> Result<Begun<'n>, Failed>
    requires { length block.old ≡ 65536 }
    ensures taken { Begins (IsRouted (P.sizes packages.now name.now) (P.reads packages.now name.now) request.now.method name.now)
        D.steps (D.content_type desk.old) request.now.body.now request.now.closes
        desk.old desk.new (W.contents sink.old) (W.contents sink.new) result }
    ensures path { D.path desk.new ≡ D.path desk.old }
    ensures content_type { D.content_type desk.new ≡ D.content_type desk.old }
    ensures failed { W.failures sink.new ≡ W.failures sink.old + (if is_ok result then 0 else 1) }
{
    let Some(declared) = desk.package(name) else {
        return done(deny(sink, block, Status::NotFound, None, request.closes));
    };
    if !request.method.is_get() {
        return done(deny(
            sink,
            block,
            Status::MethodNotAllowed,
            Some(Allow::Get),
            request.closes,
        ));
    }
    begin_fetch(sink, block, packages, name, &declared, request.closes)
}

// A reply that is written.
fn done<'n>(handled: Result<Handled, Failed>) -> Result<Begun<'n>, Failed>
    ensures { result ≡ done_of handled }
{
    match handled {
        Ok(handled) => Ok(Begun::Done(handled)),
        Err(error) => Err(error),
    }
}

// rule: Desk that no browser asks
// Whether the desk of this path is asked for a message of this method: no browser asks the operator's.
fn is_asked(path: &[u8], method: Method) -> bool
    ensures { result ≡ is_asked path.now method }
{
    match method {
        Method::Post => true,
        Method::BrowserPost => path != b"/operate".as_slice(),
        Method::Get | Method::ForeignGet | Method::Other => false,
    }
}

// rule: Route of a message
// rule: Use of a message
// rule: Reply that is begun
/// Writes the reply to a message, but of a package with bytes its head alone, and returns how it came out.
///
/// The head of a package is followed by its blocks, which a `Transfer` makes. All else is as `answer` has it.
pub fn begin<'a, W: Sink, D: Desk, Z: Packages + Clock>(
    sink: &mut W,
    block: &mut [u8],
    desk: &mut D,
    site: &Z,
    request: &Request<'a>,
) -> Result<Begun<'a>, Failed>
    requires { length block.old ≡ 65536 }
    ensures begins { Begins (IsUse (D.path desk.old) (Z.tells site.now) (Z.sizes site.now) (Z.reads site.now)
        request.now.method request.now.target.now)
        D.steps (D.content_type desk.old) request.now.body.now request.now.closes
        desk.old desk.new (W.contents sink.old) (W.contents sink.new) result }
    ensures path { D.path desk.new ≡ D.path desk.old }
    ensures content_type { D.content_type desk.new ≡ D.content_type desk.old }
    ensures failed { W.failures sink.new ≡ W.failures sink.old + (if is_ok result then 0 else 1) }
{
    let path = path_of(request.target);
    if path == desk.path().as_bytes() {
        if is_asked(path, request.method) {
            return done(ask(sink, block, desk, site, request.body, request.closes));
        }
        return done(match request.method {
            Method::BrowserPost => deny(sink, block, Status::Forbidden, None, request.closes),
            _ => deny(
                sink,
                block,
                Status::MethodNotAllowed,
                Some(Allow::Post),
                request.closes,
            ),
        });
    }
    match package_name(path) {
        Some(name) => take(sink, block, desk, site, name, request),
        None => done(show(
            sink,
            block,
            desk,
            path,
            request.method,
            request.body,
            request.closes,
        )),
    }
}

/// Writes the reply to a message, and returns how it came out.
///
/// 404 if the target names neither the desk nor a package or a page that the desk knows; 405 if the method is
/// another; 403 if a browser posts to the operator's desk, or a page is asked for at another host; the desk's
/// reply or page, or 500 if the desk is off; or the package. `block` has 65536 bytes. The packages and the time are those of the site. A
/// failure finds a first part of the reply written, and not all.
pub fn answer<W: Sink, D: Desk, Z: Packages + Clock>(
    sink: &mut W,
    block: &mut [u8],
    desk: &mut D,
    site: &Z,
    request: &Request<'_>,
) -> Result<Handled, Failed>
    requires { length block.old ≡ 65536 }
    ensures answers { Answers (IsUse (D.path desk.old) (Z.tells site.now) (Z.sizes site.now) (Z.reads site.now)
        request.now.method request.now.target.now)
        D.steps (D.content_type desk.old) request.now.body.now request.now.closes
        desk.old desk.new (W.contents sink.old) (W.contents sink.new) result }
    ensures path { D.path desk.new ≡ D.path desk.old }
    ensures content_type { D.content_type desk.new ≡ D.content_type desk.old }
    ensures failed { W.failures sink.new ≡ W.failures sink.old + (if is_ok result then 0 else 1) }
{
    match begin(sink, block, desk, site, request) {
        Ok(Begun::Done(handled)) => Ok(handled),
        Ok(Begun::Sends(name, declared)) => send_rest(sink, block, site, name, &declared),
        Err(error) => Err(error),
    }
}
