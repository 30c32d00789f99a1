ghost use Rattle.std.specs.Prelude.{◌≡◌, ◌+◌, ◌<◌, ◌≤◌, ◌==◌, ◌||◌, [], false, length, IfOk, is_ok, if◌then◌else◌};
ghost use Rattle.http_desks.specs.Uses.{IsUse};
ghost use Rattle.http_sessions.specs.Sessions.{GoesOn, Rejects, RepliesTo, Serves, TurnEnds, failed_reads, failed_writes, replies, waiting, wrote};

use crate::buffers::Buffers;
use crate::ends::{End, Fault, Served};
use crate::message::{Message, Plan, read_message};
use crate::session::{MAX_MESSAGES, Session, Turn};
use http_desks::{Clock, Desk, Handled, Packages, Request, answer, send_empty};
use http_wire::{Sink, Source, Status, Window};
use std::alloc::{AllocError, Global};

impl Session {
    /// Makes the session of a new connection.
    pub fn new(alloc: Global) -> Result<Session, AllocError>
        ensures window { IfOk result (λ session. waiting session ≡ []) }
        ensures begun { IfOk result (λ session. replies session ≡ 0) }
    {
        let window = Window::new(alloc)?;
        Ok(Session { window, begun: 0 })
    }

    // rule: End of a session
    // The session after a reply that came out so.
    fn go_on(self, handled: Handled, closes: bool) -> Turn
        requires { closes ≡ false → replies self < 999 }
        ensures goes_on { GoesOn self closes handled result }
    {
        let requests = self.begun + 1;
        let how = match handled {
            Handled::Answered => {
                if !closes {
                    return Turn::Open(Session {
                        window: self.window,
                        begun: requests,
                    });
                }
                End::Finished
            }
            Handled::Off => End::Refused,
            Handled::Cut => End::Cut,
        };
        Turn::Ended(Served { requests, end: how })
    }

    // rule: Rejection of a message
    // Writes the reply that rejects a message, and ends.
    fn reject<W: Sink>(self, status: Status, sink: &mut W, block: &mut [u8]) -> Result<Turn, Fault>
        ensures rejects { Rejects (replies self) status (W.contents sink.old) (W.contents sink.new) result }
        ensures writes { W.failures sink.new ≡ W.failures sink.old + failed_writes result }
    {
        match send_empty(sink, block, status, None, true) {
            Ok(()) => Ok(Turn::Ended(Served {
                requests: self.begun + 1,
                end: End::Refused,
            })),
            Err(_) => Err(Fault::Write),
        }
    }

    // Writes the reply to a whole message.
    fn reply<W: Sink, D: Desk, Z: Packages + Clock>(
        self,
        request: &Request<'_>,
        sink: &mut W,
        block: &mut [u8],
        desk: &mut D,
        site: &Z,
    ) -> Result<Turn, Fault>
        requires blocks { length block.old ≡ 65536 }
        requires last { request.now.closes ≡ false → replies self < 999 }
        ensures replies { RepliesTo (IsUse (D.path desk.old) (Z.tells site.now) (Z.sizes site.now) (Z.reads site.now)
            request.now.method request.now.target.now)
            D.steps (D.content_type desk.old) request.now.body.now request.now.closes self
            desk.old desk.new (W.contents sink.old) (W.contents sink.new) result }
        ensures path { D.path desk.new ≡ D.path desk.old }
        ensures content_type { D.content_type desk.new ≡ D.content_type desk.old }
        ensures writes { W.failures sink.new ≡ W.failures sink.old + failed_writes result }
    {
        match answer(sink, block, desk, site, request) {
            Ok(handled) => Ok(self.go_on(handled, request.closes)),
            Err(_) => Err(Fault::Write),
        }
    }

    // Whether the connection ends after the reply to a message of this plan.
    fn closes_after(&self, plan: &Plan) -> bool
        ensures closes { result ≡ (plan.now.closes || (replies self.now == 999)) }
        ensures last { result ≡ false → replies self.now < 999 }
    {
        plan.closes || self.begun == MAX_MESSAGES - 1
    }

    // rule: Session
    /// Reads one message and replies to it, with the packages and the clock of the site.
    ///
    /// Returns the session if the connection stays open, else how it ended. After `Read` the input
    /// was less than a message, and nothing was written; after `Write` a first part of the reply was
    /// written, and not all. It never returns `Memory`.
    pub fn turn<S: Source, W: Sink, D: Desk, Z: Packages + Clock>(
        mut self,
        buffers: &mut Buffers,
        source: &mut S,
        sink: &mut W,
        desk: &mut D,
        site: &Z,
    ) -> Result<Turn, Fault>
        ensures serves { Serves (IsUse (D.path desk.old) (Z.tells site.now) (Z.sizes site.now) (Z.reads site.now))
            D.steps (D.content_type desk.old) (replies self)
            (TurnEnds (S.remaining source.new) (replies self) result) (wrote result) (waiting self)
            (S.remaining source.old) (S.remaining source.new) (W.contents sink.old) (W.contents sink.new) desk.old desk.new }
        ensures path { D.path desk.new ≡ D.path desk.old }
        ensures content_type { D.content_type desk.new ≡ D.content_type desk.old }
        ensures reads { S.failures source.new ≡ S.failures source.old + failed_reads result }
        ensures writes { W.failures sink.new ≡ W.failures sink.old + failed_writes result }
    {
        let Buffers {
            fields,
            target,
            body,
            block,
        } = buffers;
        match read_message(source, &mut self.window, fields, target, body) {
            Ok(Message::Whole(plan)) => {
                let request = Request {
                    method: plan.method,
                    target: &target[..plan.target],
                    body: &body[..plan.size],
                    closes: self.closes_after(&plan),
                };
                self.reply(&request, sink, block, desk, site)
            }
            Ok(Message::Rejected(status)) => self.reject(status, sink, block),
            Ok(Message::Ended(how)) => Ok(Turn::Ended(Served {
                requests: self.begun,
                end: how,
            })),
            Err(_) => Err(Fault::Read),
        }
    }
}
