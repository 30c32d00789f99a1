// What a server says of itself on the standard error, if it is asked to.

ghost use Rattle.std.specs.Prelude.{◌≡◌, ◌++◌, ◌∷◌, [], IfOk, IsFalse, IsTrue, Some, string_bytes};
ghost use Rattle.server_ports.specs.Notes.{IsUnreported, crew_string, note_line, served_string, serving_string};

use crate::setup::Setup;
use access_logs::LineSender;
use std::alloc::{AllocError, Global};
use std::sync::Wait;
use std::{fmt, str};
use streams::Shown;
use values::Text;

// The most reports of an edition on failed downloads.
const MAX_REPORTED: usize = 256;

/// The lines that a server says of itself. A lock holds them, which no whole reply waits for.
pub struct Notes {
    alloc: Global,
    // where the lines go, if there is somebody who asked for them
    sender: Option<LineSender>,
    // what was reported of failed downloads in the edition: a reason, and the name of its package
    reported: Vec<Text>,
}

// Written out, so that no caller proves again how each part is dropped.
impl Drop for Notes {
    fn drop(self) {
        let Notes {
            alloc: _,
            sender: _,
            reported: _,
        } = self;
    }
}

// A line of the server.
fn line_of(alloc: Global, said: &str) -> Result<String, AllocError>
    ensures { IfOk result (λ line. string_bytes line ≡ note_line said.now) }
{
    format!(in alloc; "omaha: {said}\n")
}

// Whether a report is among those that were made.
fn is_reported(reported: &[Text], report: &str) -> bool
    ensures { IsFalse result → IsUnreported reported.now report.now }
{
    for each in reported {
        if each.as_str() == report {
            return true;
        }
    }
    false
}

impl Notes {
    /// Makes notes of which no line is sent, and nothing is reported yet.
    pub fn new(alloc: Global) -> Notes {
        Notes {
            alloc,
            sender: None,
            reported: Vec::new(alloc),
        }
    }

    /// Has lines sent from now on.
    pub(crate) fn begin(&mut self, sender: Option<LineSender>) {
        self.sender = sender;
    }

    /// Sends a line, if there is memory for it.
    pub(crate) fn send(&mut self, said: &str) {
        let Some(sender) = &mut self.sender else {
            return;
        };
        if let Ok(line) = line_of(self.alloc, said) {
            sender.send(line.as_bytes());
        }
    }

    // rule: Download that fails
    /// Notes why the download of a package failed; whether that is to be reported: for the first time in this edition.
    pub(crate) fn is_new(&mut self, report: &str) -> bool
        ensures unreported { IsTrue result → IsUnreported self.old.reported.items report.now }
        ensures noted { IsTrue result → self.new.reported.items ≡ self.old.reported.items ++ (report.now ∷ []) }
    {
        if self.reported.len() >= MAX_REPORTED || is_reported(&self.reported, report) {
            return false;
        }
        match Text::copy_of(self.alloc, report) {
            Ok(report) => self.reported.push(report).is_ok(),
            Err(_) => false,
        }
    }

    /// Begins an edition, of whose packages nothing was reported.
    pub fn begin_edition(&mut self) {
        self.reported.clear();
    }

    /// Ends the lines: none is sent any more.
    pub fn end(&mut self) {
        if let Some(sender) = self.sender.take() {
            let _ = sender.finish();
        }
    }
}

/// Sends a line that a server says of itself, if it says what it does and there is memory for the line.
pub fn note<S, R: Wait>(setup: &Setup<'_, S, R>, said: &str) {
    setup.notes.lock(setup.rt).send(said);
}

/// Sends a line of the operator's desk without its line feed, if it is UTF-8, as `note` does.
pub fn note_reply<S, R: Wait>(setup: &Setup<'_, S, R>, line: &[u8]) {
    let Ok(line) = str::from_utf8(line) else {
        return;
    };
    note(setup, line.strip_suffix("\n").unwrap_or(line));
}

/// What is served, where, and by what.
#[derive(Clone, Copy)]
pub(crate) struct Serving<'a> {
    /// Its name.
    pub(crate) name: &'a str,
    /// The number of its edition.
    pub(crate) edition: u64,
    /// The address of the clients.
    pub(crate) address: &'a Text,
    /// That of the operator, if there is an operator.
    pub(crate) operator: &'a Option<Text>,
    /// How many workers serve.
    pub(crate) workers: usize,
    /// How many connections of clients may be open at once.
    pub(crate) connections: u64,
}

// What is served, and at which address.
#[derive(Clone, Copy)]
struct Served<'a> {
    name: &'a str,
    edition: u64,
    address: &'a str,
}

impl fmt::Display for Served<'_> {
    ghost output = { λ served. Some (served_string served.name.now served.edition served.address.now) };

    #[tactic(auto, unfolding(crate::specs::Notes::served_string))]
    fn fmt<W: fmt::Write>(&self, f: &mut fmt::Formatter<W>) -> fmt::Result {
        let name = Shown { string: self.name };
        let (edition, address) = (self.edition, self.address);
        write!(f, "serving {name} as edition {edition} at {address}")
    }
}

// How many workers serve, and how many connections there may be at once.
#[derive(Clone, Copy)]
struct CrewSize {
    workers: usize,
    connections: u64,
}

impl fmt::Display for CrewSize {
    ghost output = { λ crew. Some (crew_string crew.workers crew.connections) };

    #[tactic(auto, unfolding(crate::specs::Notes::crew_string))]
    fn fmt<W: fmt::Write>(&self, f: &mut fmt::Formatter<W>) -> fmt::Result {
        let (workers, connections) = (self.workers, self.connections);
        write!(f, "{workers} workers, {connections} connections")
    }
}

// rule: Line of what is served
impl fmt::Display for Serving<'_> {
    ghost output = { λ serving. Some (serving_string serving) };

    fn fmt<W: fmt::Write>(&self, f: &mut fmt::Formatter<W>) -> fmt::Result {
        let address = self.address.as_str();
        let served = Served {
            name: self.name,
            edition: self.edition,
            address,
        };
        let crew = CrewSize {
            workers: self.workers,
            connections: self.connections,
        };
        match self.operator {
            Some(operator) => {
                let operator = operator.as_str();
                write!(f, "{served}, operator at {operator}, {crew}")
            }
            None => write!(f, "{served}, {crew}"),
        }
    }
}
