// What is seen of the connections of a port: their replies, to be counted, and the downloads that fail.

use crate::notes::note;
use crate::setup::Setup;
use access_logs::{CutReply, LastReply};
use http_ports::{Port, WatchEach};
use http_wire::{package_name, path_of};
use package_files::Mismatch;
use std::alloc::{AllocError, Global};
use std::marker::PhantomData;
use std::net::IpAddr;
use std::str;
use std::sync::Wait;
use systems::System;
use tallies::{Cell, Tally, Visit};

/// What is seen of the connections of a port.
#[derive(Drop)]
pub(crate) struct Watches<'s, 'a, 't, S, R, P> {
    /// What the port is served with.
    pub(crate) setup: &'s Setup<'a, S, R>,
    /// Where what is served is counted, if it is.
    pub(crate) tally: Option<&'t Tally>,
    /// The ports of the system.
    pub(crate) ports: PhantomData<P>,
}

/// What was seen of a connection.
#[derive(Drop)]
pub(crate) struct Sight {
    // for the tally, if there is one
    visit: Option<Visit>,
    // its last reply, if failed downloads are reported or counted
    last: Option<LastReply>,
    // whether its last message may ask for a package
    may_fetch: bool,
}

// The name of the package that a message with this first line asks for.
fn package_in(line: &[u8]) -> Option<&[u8]> {
    let target = line.split(|byte| *byte == b' ').nth(1)?;
    package_name(path_of(target))
}

// What a file has of a package of this size that was cut off, as far as its size says.
fn mismatch_of(declared: u64, found: Option<u64>) -> Mismatch {
    match found {
        None => Mismatch::Missing,
        Some(size) if size != declared => Mismatch::Size { size, declared },
        Some(_) => Mismatch::Hash,
    }
}

// What is reported once in an edition: the kind of a mismatch, and the name of its package.
fn report_of(alloc: Global, name: &str, mismatch: &Mismatch) -> Result<String, AllocError> {
    let kind = match mismatch {
        Mismatch::Missing => "missing",
        Mismatch::Size { .. } => "size",
        _ => "sha256",
    };
    format!(in alloc; "{kind} {name}")
}

// Says that downloads of a package fail, and why.
fn note_failed<S: System<P>, R: Wait + AllocGlobal, P: Port>(
    setup: &Setup<'_, S, R>,
    name: &[u8],
    declared: u64,
) -> Result<(), AllocError> {
    let Ok(shown) = str::from_utf8(name) else {
        return Ok(());
    };
    let found = setup
        .system
        .package_size(setup.place.packages.as_str(), name);
    let mismatch = mismatch_of(declared, found);
    let report = report_of(setup.rt.alloc(), shown, &mismatch)?;
    if !setup.notes.lock(setup.rt).is_new(report.as_str()) {
        return Ok(());
    }
    let said = format!(in setup.rt.alloc(); "failed download of {shown}: {mismatch}")?;
    note(setup, said.as_str());
    Ok(())
}

// Counts that a reply was cut off, if it is a package, and says so, if the place has a name.
fn note_cut<S: System<P>, R: Wait + AllocGlobal, P: Port>(
    setup: &Setup<'_, S, R>,
    tally: Option<&Tally>,
    cut: &CutReply<'_>,
) {
    let Some(name) = package_in(cut.line) else {
        return;
    };
    if let Some(tally) = tally {
        tally.add(Cell::Failures, 1);
    }
    if setup.place.named.is_some() {
        let _ = note_failed::<S, R, P>(setup, name, cut.size);
    }
}

// What is counted of a connection that was accepted.
fn visit_of(tally: Option<&Tally>) -> Option<Visit> {
    match tally {
        Some(tally) => Some(Visit::open(tally)),
        None => None,
    }
}

impl Sight {
    // Notes the first bytes of a message. No package is asked for by a `POST`.
    fn begin(&mut self, tally: Option<&Tally>, waiting: &[u8]) {
        if let (Some(tally), Some(visit)) = (tally, &mut self.visit) {
            visit.begin(tally, waiting);
        }
        self.may_fetch = !waiting.starts_with(b"POST ");
        if let (true, Some(last)) = (self.may_fetch, &mut self.last) {
            last.begin(waiting);
        }
    }

    // Notes bytes of a reply.
    fn write(&mut self, tally: Option<&Tally>, bytes: &[u8]) {
        if let (Some(tally), Some(visit)) = (tally, &mut self.visit) {
            visit.write(tally, bytes);
        }
        if let (true, Some(last)) = (self.may_fetch, &mut self.last) {
            last.write(bytes);
        }
    }
}

impl<S: System<P>, R: Wait + AllocGlobal, P: Port> WatchEach for Watches<'_, '_, '_, S, R, P> {
    type Seen = Sight;

    fn opens(&self, _peer: Option<IpAddr>) -> Sight {
        let visit = visit_of(self.tally);
        let is_reported = visit.is_some() || self.setup.place.named.is_some();
        let last = if is_reported {
            Some(LastReply::new(self.setup.rt.alloc()))
        } else {
            None
        };
        Sight {
            visit,
            last,
            may_fetch: false,
        }
    }

    fn begins(&self, seen: &mut Sight, waiting: &[u8]) {
        seen.begin(self.tally, waiting);
    }

    fn writes(&self, seen: &mut Sight, bytes: &[u8]) {
        seen.write(self.tally, bytes);
    }

    fn finishes(&self, seen: &mut Sight) {
        if let (true, Some(last)) = (seen.may_fetch, &seen.last) {
            if let Some(cut) = last.cut() {
                note_cut::<S, R, P>(self.setup, self.tally, &cut);
            }
        }
    }

    fn ends(&self, seen: Sight) {
        if let (Some(tally), Some(visit)) = (self.tally, seen.visit) {
            visit.end(tally);
        }
    }
}
