ghost use Rattle.std.specs.Prelude.{◌≡◌, ◌⊎◌, ◌++◌, ◌<◌, ◌≤◌, ℕ, List, [], drop, length, take};
ghost use Rattle.http_desks.specs.Calls.{Call, Leads};
ghost use Rattle.http_desks.specs.Uses.{IsUse};
ghost use Rattle.http_ports.specs.Speech.{IsNext, Waiting};
ghost use Rattle.http_ports.specs.Traffic.{IsTime};
ghost use Rattle.http_ports.specs.declared.timestamp.Timestamp.{Timestamp};
ghost use Rattle.http_sessions.specs.Leaves.{GivesUp, GoesOn, IsApplied, MakesAtOnce};
ghost use Rattle.http_sessions.specs.Talks.{IsSending, Said, is_lost, pending, phase_of};

use crate::buffers::Buffers;
use crate::foreseeing::Foreseen;
use crate::talks::at::At;
use crate::talks::outcome::After;
use crate::talks::replying::{reject, reply};
use crate::talks::sending::send_on;
use crate::talks::talk::{Stage, Talk};
use http_desks::{Desk, Packages};
use http_ports::{Next, Protocol};
use std::alloc::Global;
use std::net::IpAddr;

/// The sessions of a site, as what is said on connections.
#[derive(Drop)]
pub struct Talks<'a, Z> {
    /// The memory of connections.
    pub alloc: Global,
    /// The packages.
    pub site: &'a Z,
}

// How a connection goes on; one that is busy and has made nothing is lost.
fn next_of(talk: &mut Talk) -> Next
    ensures next { IsNext result (pending talk.new) (phase_of talk.new.stage) }
    ensures left { (talk.new ≡ talk.old) ⊎ GivesUp talk.old talk.new }
{
    if !talk.made[talk.sent..].is_empty() {
        return Next::Made;
    }
    match talk.stage {
        Stage::Part => Next::Waits,
        Stage::Over => Next::Over,
        Stage::Failed => Next::Over,
        Stage::Lost => Next::Over,
        Stage::Busy | Stage::Sends(_) => {
            talk.stage = Stage::Lost;
            Next::Over
        }
    }
}

// A connection whose session has ended, and whose last reply was made.
fn ended(alloc: Global, stage: Stage, made: Vec<u8>) -> Talk
    ensures stage { result.stage ≡ stage }
    ensures pending { pending result ≡ made.items }
{
    Talk {
        stage,
        begun: 0,
        kept: Vec::new(alloc),
        need: 0,
        made,
        sent: 0,
    }
}

// Takes over what a reply leaves.
fn apply(alloc: Global, talk: &mut Talk, after: After)
    ensures { IsApplied talk.old after talk.new }
{
    match after {
        After::Lost => talk.stage = Stage::Lost,
        After::Over(made) => *talk = ended(alloc, Stage::Over, made),
        After::Failed(made) => *talk = ended(alloc, Stage::Failed, made),
        After::Open(opened) => {
            *talk = Talk {
                stage: Stage::Busy,
                begun: opened.begun,
                kept: opened.kept,
                need: 0,
                made: opened.made,
                sent: 0,
            };
        }
        After::Sends(started) => {
            *talk = Talk {
                stage: Stage::Sends(started.sending),
                begun: started.begun,
                kept: started.kept,
                need: 0,
                made: started.made,
                sent: 0,
            };
        }
    }
}

impl<Z: Packages> Protocol for Talks<'_, Z> {
    ghost use Rattle.http_desks.specs.Uses.{IsUse};
    ghost use Rattle.http_ports.specs.Traffic.{IsTime};
    ghost use Rattle.http_sessions.specs.Talks.{Said, is_lost, pending, phase_of, waiting_of};

    type Conn = Talk;

    type Room = Buffers;

    ghost pending = { pending };

    ghost waiting = { waiting_of };

    ghost phase = { λ talk. phase_of talk.stage };

    ghost is_lost = { λ talk. is_lost talk.stage };

    ghost so_far = { λ talks path kind.
        Said (IsUse path IsTime (Z.sizes talks.site.now) (Z.reads talks.site.now)) kind };

    fn open(&self, _peer: Option<IpAddr>) -> Talk {
        Talk {
            stage: Stage::Busy,
            begun: 0,
            kept: Vec::new(self.alloc),
            need: 0,
            made: Vec::new(self.alloc),
            sent: 0,
        }
    }

    fn pending<'c>(&self, talk: &'c Talk) -> &'c [u8] {
        &talk.made[talk.sent..]
    }

    fn waiting<'c>(&self, talk: &'c Talk) -> Option<&'c [u8]> {
        match talk.stage {
            Stage::Busy => Some(&talk.kept),
            Stage::Part | Stage::Sends(_) | Stage::Over | Stage::Failed | Stage::Lost => None,
        }
    }

    fn end(&self, talk: Talk) -> bool {
        matches!(talk.stage, Stage::Failed | Stage::Lost)
    }

    fn sent(&self, talk: &mut Talk, count: usize) {
        talk.sent += count;
    }

    fn take(&self, talk: &mut Talk, bytes: &[u8]) {
        match talk.kept.extend_from_slice(bytes) {
            Ok(()) => {
                if talk.kept.len() >= talk.need {
                    talk.stage = Stage::Busy;
                }
            }
            Err(_) => {
                talk.stage = Stage::Lost;
                talk.sent = 0;
                talk.made.clear();
            }
        }
    }

    fn go_on<D: Desk>(
        &self,
        room: &mut Buffers,
        talk: &mut Talk,
        desk: &mut D,
        seconds: u64,
    ) -> Next
        requires sent { pending talk.old ≡ [] }
        requires time { IsTime seconds }
        ensures next { IsNext result (pending talk.new) (phase_of talk.new.stage) }
        ensures calls { GoesOn (IsUse (D.path desk.old) IsTime (Z.sizes self.now.site.now) (Z.reads self.now.site.now))
            D.steps (D.content_type desk.old) seconds talk.old desk.old talk.new desk.new }
        ensures at_once { MakesAtOnce (IsUse (D.path desk.old) (λ time. time ≡ seconds) (Z.sizes self.now.site.now) (Z.reads self.now.site.now))
            D.steps (D.content_type desk.old) talk.old desk.old talk.new desk.new }
        ensures block { IsSending talk.old.stage → length (pending talk.new) ≤ 65536 }
        ensures path { D.path desk.new ≡ D.path desk.old }
        ensures content_type { D.content_type desk.new ≡ D.content_type desk.old }
    {
        match talk.stage {
            Stage::Part => Next::Waits,
            Stage::Over => Next::Over,
            Stage::Failed => Next::Over,
            Stage::Lost => Next::Over,
            Stage::Sends(_) => {
                send_on(self.alloc, self.site, talk);
                next_of(talk)
            }
            Stage::Busy => match room.foresee(&talk.kept) {
                Foreseen::Part(need) => {
                    talk.stage = Stage::Part;
                    talk.need = need;
                    talk.sent = 0;
                    talk.made = Vec::new(self.alloc);
                    Next::Waits
                }
                Foreseen::Whole(found) => {
                    let site = At {
                        site: self.site,
                        seconds,
                    };
                    let after = reply(
                        self.alloc, room, &site, talk.begun, &talk.kept, &found, desk,
                    );
                    apply(self.alloc, talk, after);
                    next_of(talk)
                }
                Foreseen::Rejected(status) => {
                    let after = reject(self.alloc, room, status);
                    apply(self.alloc, talk, after);
                    next_of(talk)
                }
            },
        }
    }
}
