ghost use Rattle.std.specs.Prelude.{◌≡◌, Some};
ghost use Rattle.failures.specs.Failures.{failure_string, is_declined, status_words, word_of};

use crate::history_fault::HistoryFault;
use catalogue::Refused;
use certificates::Fault as CertificateFault;
use omaha_json::RequestFault;
use package_files::{DescribeError, Lack, Lacking};
use profile_toml::ProfileFault;
use std::alloc::AllocError;
use std::error::Error;
use std::fmt;
use streams::{ReadFailure, Shown};
use update_client::{Fault, Reply};
use values::{ReadError, Text};

/// Why a command fails; it prints as the rest of the line that begins `omaha: `.
///
/// Those of the profile come before those of the request.
#[derive(Debug)]
pub enum Failure {
    /// The file of a profile, a certificate or a script, of that path, could not be read, or has over 256 MiB, or as
    /// a script over 262144 bytes; or the log's, of that path, could not be opened; or there is no folder of packages
    /// of that path. The path prints without control characters.
    File(Text),
    /// The file at that path can't be described, for that reason. The path prints without control characters.
    Undescribed(Text, DescribeError),
    /// So many declared packages differ from their files.
    Packages(u64),
    /// A folder must have the package of this name with its size, and has this.
    Package(Text, Lack),
    /// The profile is invalid.
    Profile(ProfileFault),
    /// An edit of the profile was rejected, or one of the script of a check or a review.
    Edit(Refused),
    /// The script is invalid: that of a check or a review, one whose packages are compared, or one that is typed.
    Script(ProfileFault),
    /// The script of a check or a review is written for another edition than this.
    Stale(u64),
    /// There is no room for the edition of a script.
    HistoryFull,
    /// A strict review found so many releases that are stuck, or newly stuck.
    Stuck(u128),
    /// The input could not be read to its end.
    Read,
    /// The input has over 262144 bytes; it prints as `Read` does.
    TooLong,
    /// The request is invalid.
    Request(RequestFault),
    /// There is no such certificate, or it is not valid.
    Certificate(CertificateFault),
    /// The program prints no such code. The code prints without control characters.
    Code(Text),
    /// The address could not be bound; or the listener at it could not be reached, sent no whole reply, or didn't name
    /// its edition. The address prints without control characters.
    Net(Text),
    /// The history at that path can't be used, for that reason. The path prints without control characters.
    History(Text, HistoryFault),
    /// The server of the listener at that address was asked to end, and hasn't in time. The address prints without control
    /// characters.
    Stopping(Text),
    /// There is no place for a view of the editions.
    NoPlace,
    /// A view entered no edition.
    Closed,
    /// A thread could not be started.
    Thread,
    /// An ask was rejected for which a mirror has room, by its total at the end and its first budget.
    RoomLeft,
    /// A worker's view is not of what the operator published.
    Unpublished,
    /// A port ended before its last connection, though nobody stopped the server.
    EndedEarly,
    /// A walk failed.
    Walk(Fault),
    /// The operator's listener replied so, with another status than 200. Its reply is printed, and nothing else.
    Declined(Reply),
    /// What listens at that address replied with that status, and not as an operator's listener does. The address prints
    /// without control characters.
    Unexpected(Text, u16),
    /// Memory ran out.
    Memory,
    /// The reply could not be written.
    Write,
}

// Written out, so that no caller proves again how each part is dropped.
impl Drop for Failure {
    fn drop(self) {
        match self {
            Failure::File(_) => {}
            Failure::Undescribed(_, _) => {}
            Failure::Packages(_) => {}
            Failure::Package(_, _) => {}
            Failure::Profile(_) => {}
            Failure::Edit(_) => {}
            Failure::Script(_) => {}
            Failure::Stale(_) => {}
            Failure::HistoryFull => {}
            Failure::Stuck(_) => {}
            Failure::Read => {}
            Failure::TooLong => {}
            Failure::Request(_) => {}
            Failure::Certificate(_) => {}
            Failure::Code(_) => {}
            Failure::Net(_) => {}
            Failure::History(_, _) => {}
            Failure::Stopping(_) => {}
            Failure::NoPlace => {}
            Failure::Closed => {}
            Failure::Thread => {}
            Failure::RoomLeft => {}
            Failure::Unpublished => {}
            Failure::EndedEarly => {}
            Failure::Walk(_) => {}
            Failure::Declined(_) => {}
            Failure::Unexpected(_, _) => {}
            Failure::Memory => {}
            Failure::Write => {}
        }
    }
}

// What a status says of whoever sent it, and no line of an operator's listener.
fn status_words(status: u16) -> &'static str
    ensures { result.now ≡ status_words status }
{
    match status {
        403 => "the request has a browser's field: is a proxy before the listener?",
        500 => "the server has no memory, or can't keep a record: look at its log",
        502 => "a proxy doesn't reach the server",
        503 => "a proxy doesn't reach the server",
        504 => "a proxy doesn't reach the server",
        _ => "not an operator's address of an omaha server",
    }
}

// What is printed of a failure that prints as a word.
fn word_of(failure: &Failure) -> &'static str
    ensures { result.now ≡ word_of failure.now }
{
    match failure {
        Failure::HistoryFull => "history full",
        Failure::Read => "read",
        Failure::TooLong => "read",
        Failure::NoPlace => "no place",
        Failure::Closed => "closed",
        Failure::Thread => "thread",
        Failure::RoomLeft => "room left",
        Failure::Unpublished => "unpublished",
        Failure::EndedEarly => "ended early",
        Failure::Declined(_) => "declined",
        Failure::Memory => "memory",
        Failure::Write => "write",
        _ => "",
    }
}

// rule: Printed failure
impl fmt::Display for Failure {
    ghost output = { λ f. Some (failure_string f) };

    fn fmt<W: fmt::Write>(&self, f: &mut fmt::Formatter<W>) -> fmt::Result {
        match self {
            Failure::File(path) => {
                let path = Shown {
                    string: path.as_str(),
                };
                write!(f, "file {path}")
            }
            Failure::Undescribed(path, reason) => {
                let path = Shown {
                    string: path.as_str(),
                };
                write!(f, "file {path}: {reason}")
            }
            Failure::Packages(count) => write!(f, "packages {count}"),
            Failure::Package(name, lack) => {
                let lacking = Lacking {
                    name: name.as_str(),
                    lack: *lack,
                };
                write!(f, "{lacking}")
            }
            Failure::Profile(fault) => fmt::Display::fmt(fault, f),
            Failure::Edit(refused) => fmt::Display::fmt(refused, f),
            Failure::Script(fault) => write!(f, "script {fault}"),
            Failure::Stale(number) => write!(f, "stale {number}"),
            Failure::Stuck(count) => write!(f, "stuck {count}"),
            Failure::Request(fault) => fmt::Display::fmt(fault, f),
            Failure::Certificate(fault) => fmt::Display::fmt(fault, f),
            Failure::Code(code) => {
                let code = Shown {
                    string: code.as_str(),
                };
                write!(f, "no code {code}")
            }
            Failure::Net(address) => {
                let address = Shown {
                    string: address.as_str(),
                };
                write!(f, "net {address}")
            }
            Failure::History(path, fault) => {
                let path = Shown {
                    string: path.as_str(),
                };
                write!(f, "history {path}: {fault}")
            }
            Failure::Stopping(address) => {
                let address = Shown {
                    string: address.as_str(),
                };
                write!(f, "stopping {address}")
            }
            Failure::Unexpected(address, status) => {
                let address = Shown {
                    string: address.as_str(),
                };
                let words = status_words(*status);
                write!(f, "status {status} at {address}: {words}")
            }
            Failure::Walk(fault) => fmt::Display::fmt(fault, f),
            _ => f.write_str(word_of(self)),
        }
    }
}

impl Error for Failure {}

impl Failure {
    /// Whether it is `Declined`, of which standard error says nothing.
    pub fn is_declined(&self) -> bool
        ensures { result ≡ is_declined self.now }
    {
        match self {
            Failure::Declined(_) => true,
            _ => false,
        }
    }
}

impl From<AllocError> for Failure {
    ghost use Rattle.std.specs.Prelude.{◌≡◌};
    ghost use Rattle.failures.specs.declared.failure.Failure.TheVariants.{Memory};

    ghost from_gives = { λ _ failure. failure ≡ Memory };

    fn from(_refused: AllocError) -> Failure {
        Failure::Memory
    }
}

impl From<ReadFailure> for Failure {
    ghost use Rattle.std.specs.Prelude.{◌≡◌};
    ghost use Rattle.failures.specs.Rejections.{failure_of_input};

    ghost from_gives = { λ error failure. failure ≡ failure_of_input error };

    fn from(error: ReadFailure) -> Failure {
        match error {
            ReadFailure::Broken => Failure::Read,
            ReadFailure::TooLong => Failure::TooLong,
            ReadFailure::Memory => Failure::Memory,
        }
    }
}

impl From<ReadError<ProfileFault>> for Failure {
    ghost use Rattle.std.specs.Prelude.{◌≡◌};
    ghost use Rattle.failures.specs.Rejections.{failure_of_profile};

    ghost from_gives = { λ error failure. failure ≡ failure_of_profile error };

    fn from(error: ReadError<ProfileFault>) -> Failure {
        match error {
            ReadError::Fault(fault) => Failure::Profile(fault),
            ReadError::Memory => Failure::Memory,
        }
    }
}

impl From<ReadError<Refused>> for Failure {
    ghost use Rattle.std.specs.Prelude.{◌≡◌};
    ghost use Rattle.failures.specs.Rejections.{failure_of_edit};

    ghost from_gives = { λ error failure. failure ≡ failure_of_edit error };

    fn from(error: ReadError<Refused>) -> Failure {
        match error {
            ReadError::Fault(refused) => Failure::Edit(refused),
            ReadError::Memory => Failure::Memory,
        }
    }
}

impl From<ReadError<CertificateFault>> for Failure {
    ghost use Rattle.std.specs.Prelude.{◌≡◌};
    ghost use Rattle.failures.specs.Rejections.{failure_of_certificate};

    ghost from_gives = { λ error failure. failure ≡ failure_of_certificate error };

    fn from(error: ReadError<CertificateFault>) -> Failure {
        match error {
            ReadError::Fault(fault) => Failure::Certificate(fault),
            ReadError::Memory => Failure::Memory,
        }
    }
}

impl From<ReadError<Fault>> for Failure {
    ghost use Rattle.std.specs.Prelude.{◌≡◌};
    ghost use Rattle.failures.specs.Rejections.{failure_of_walk};

    ghost from_gives = { λ error failure. failure ≡ failure_of_walk error };

    fn from(error: ReadError<Fault>) -> Failure {
        match error {
            ReadError::Fault(fault) => Failure::Walk(fault),
            ReadError::Memory => Failure::Memory,
        }
    }
}
