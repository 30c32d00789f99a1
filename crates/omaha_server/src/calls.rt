// What a server says of the calls of the operator's desk.

ghost use Rattle.std.specs.Prelude.{◌≡◌};
ghost use Rattle.std.specs.Option.{option_copied};
ghost use Rattle.http_desks.specs.Calls.{answer_in};
ghost use Rattle.omaha_server.specs.Notes.{is_unsaid, note_of};

use http_desks::{Answer, DeskStatus, Off};
use http_ports::Port;
use profile_toml::read_script;
use server_ports::{Setup, note, note_edits, note_reply};
use std::sync::Wait;
use systems::System;

// Whether nothing is said of a reply of 200.
fn is_unsaid(body: &[u8], line: &[u8]) -> bool
    ensures { result ≡ is_unsaid body.now line.now }
{
    body == b"dump".as_slice() || (body == b"follow".as_slice() && line.starts_with(b"edition "))
}

// rule: What is said of a call
// What a server says of a reply of the operator's desk, with its line feed: what was published, adopted or raised.
fn note_of<'b>(body: &[u8], answered: &'b Result<Answer, Off>) -> Option<&'b [u8]>
    ensures { option_copied result ≡ note_of body.now (answer_in answered.now) }
{
    match answered {
        Ok(answer)
            if answer.status == DeskStatus::Success && !is_unsaid(body, answer.body.as_slice()) => {
            Some(answer.body.as_slice())
        }
        _ => None,
    }
}

/// Says which package kept a script from being published, if the place has a name.
pub(crate) fn note_stop<S, R: Wait>(setup: &Setup<'_, S, R>, stopped: &Result<Answer, Off>) {
    if setup.place.named.is_none() {
        return;
    }
    if let Ok(answer) = stopped {
        note_reply(setup, answer.body.as_slice());
    }
}

// Says which packages that a script adds aren't there with their sizes, if the body is one.
fn note_added<S: System<P>, R: Wait + AllocGlobal, P: Port>(setup: &Setup<'_, S, R>, body: &[u8]) {
    if let Ok(script) = read_script(setup.rt.alloc(), body) {
        note_edits::<S, R, P>(setup, script.1.edits());
    }
}

// Begins an edition, if the body isn't that of a raise, and says which packages that it adds aren't there.
fn note_script<S: System<P>, R: Wait + AllocGlobal, P: Port>(setup: &Setup<'_, S, R>, body: &[u8]) {
    if body.starts_with(b"raise ") {
        return;
    }
    setup.notes.lock(setup.rt).begin_edition();
    note_added::<S, R, P>(setup, body);
}

/// Says what was published or raised, if something was, and which packages of it aren't there, if the place has a name.
pub(crate) fn note_answer<S: System<P>, R: Wait + AllocGlobal, P: Port>(
    setup: &Setup<'_, S, R>,
    body: &[u8],
    answered: &Result<Answer, Off>,
) {
    if setup.place.named.is_none() {
        return;
    }
    if let Some(line) = note_of(body, answered) {
        note_reply(setup, line);
        note_script::<S, R, P>(setup, body);
    }
}

/// Says that the server was asked to end, if the place has a name, and has its ports end.
pub(crate) fn end_server<S: System<P>, R: Wait, P: Port>(setup: &Setup<'_, S, R>) {
    if setup.place.named.is_some() {
        note(setup, "stopping");
    }
    setup.ending.ask::<S, P>(setup.system);
}
