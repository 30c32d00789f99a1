//! Laws of sessions, for callers' proofs; they do nothing at run time.

ghost use Rattle.http_desks.specs.Uses.{IsUse};
ghost use Rattle.http_sessions.specs.Laws.{AreAlike, AreJoined, IsOneCut};

use http_desks::{Clock, Desk, Packages};

/// Joined parts of a session are a session, so it may be advanced turn by turn.
pub fn parts<D: Desk, Z: Packages + Clock>(desk: &D, site: &Z)
    ensures { AreJoined (IsUse (D.path desk.now) (Z.tells site.now) (Z.sizes site.now) (Z.reads site.now)) D.steps (D.content_type desk.now) }
{}

/// A stream is cut into messages in one way, and with the same uses the same bytes are written.
pub fn one_cut()
    ensures { IsOneCut }
{}

/// Two sessions over the same bytes, in whatever pieces, write the same if their messages came to the
/// same uses; but if the input ends within a target, whose bytes may be invalid.
pub fn alike<D: Desk, Z: Packages + Clock>(desk: &D, site: &Z)
    ensures { AreAlike (IsUse (D.path desk.now) (Z.tells site.now) (Z.sizes site.now) (Z.reads site.now)) D.steps (D.content_type desk.now) }
{}
