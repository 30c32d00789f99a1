// The lines that the operator's desk replies with.

ghost use Rattle.std.specs.Prelude.{◌≡◌, MatchResult, Some};
ghost use Rattle.http_desks.specs.declared.desk.Off.TheVariants.{Memory};
ghost use Rattle.service_desks.specs.Replies.{bytes_of, status_of};

use catalogue::Refused;
use http_desks::{Answer, DeskStatus, Off};
use mirror_ledger::RaiseError;
use profile_toml::ProfileFault;
use std::alloc::Global;
use std::fmt;

/// What the operator's desk says of a script or of a raise.
#[derive(Clone, Copy)]
pub(crate) enum Line<'a> {
    /// It was published as the edition of this number.
    Edition(u64),
    /// Another edition than its base is published: the one of this number.
    Stale(u64),
    /// One of its edits was rejected.
    Refused(Refused),
    /// There is no room for another edition.
    HistoryFull,
    /// A record of another server was adopted, and the edition of this number is published.
    Followed(u64),
    /// No server of the history replies, and nothing was kept.
    Unreachable,
    /// No server of the history replies, and it may have been kept.
    InDoubt,
    /// It is no script.
    Invalid(&'a ProfileFault),
    /// The budget of the mirror of this name was raised to this number of bytes.
    Raised(&'a str, &'a str),
    /// No budget was raised.
    Unraised(RaiseError),
    /// It is no valid raise.
    InvalidRaise,
}

// rule: Lines of the operator's desk
impl fmt::Display for Line<'_> {
    ghost output = { λ line. Some (bytes_of line) };

    fn fmt<W: fmt::Write>(&self, f: &mut fmt::Formatter<W>) -> fmt::Result {
        match self {
            Line::Edition(number) => write!(f, "edition {number}\n"),
            Line::Stale(number) => write!(f, "stale {number}\n"),
            Line::Refused(refused) => {
                let index = refused.index;
                let fault = refused.fault;
                write!(f, "refused {index} {fault}\n")
            }
            Line::HistoryFull => write!(f, "history full\n"),
            Line::Followed(number) => write!(f, "followed {number}\n"),
            Line::Unreachable => write!(f, "history unreachable\n"),
            Line::InDoubt => write!(f, "history in doubt\n"),
            Line::Invalid(fault) => write!(f, "{fault}\n"),
            Line::Raised(name, digits) => write!(f, "raised {name} {digits}\n"),
            Line::Unraised(fault) => write!(f, "refused {fault}\n"),
            Line::InvalidRaise => write!(f, "bad raise\n"),
        }
    }
}

fn status_of(line: &Line<'_>) -> DeskStatus
    ensures { result ≡ status_of line.now }
{
    match line {
        Line::Edition(_) => DeskStatus::Success,
        Line::Stale(_) => DeskStatus::Conflict,
        Line::Refused(_) => DeskStatus::UnprocessableContent,
        Line::HistoryFull => DeskStatus::UnprocessableContent,
        Line::Followed(_) => DeskStatus::Success,
        Line::Unreachable => DeskStatus::ServiceUnavailable,
        Line::InDoubt => DeskStatus::ServiceUnavailable,
        Line::Invalid(_) => DeskStatus::BadRequest,
        Line::Raised(_, _) => DeskStatus::Success,
        Line::Unraised(_) => DeskStatus::UnprocessableContent,
        Line::InvalidRaise => DeskStatus::BadRequest,
    }
}

/// The reply of a line.
pub(crate) fn reply_with(alloc: Global, line: &Line<'_>) -> Result<Answer, Off>
    ensures { MatchResult result
        (λ answer. (answer.status ≡ status_of line.now) × (answer.body.items ≡ bytes_of line.now))
        (λ off. off ≡ Memory) }
{
    match format!(in alloc; "{line}") {
        Ok(text) => Ok(Answer {
            status: status_of(line),
            body: text.into_bytes(),
        }),
        Err(_) => Err(Off::Memory),
    }
}
