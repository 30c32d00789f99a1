//! The program `omaha`, but for its `main`: an update server, checks of profiles, and a client.
//!
//! `run` carries out the command that `omaha_arguments` reads, reports how it ended and returns the exit status: read
//! `specs/Running.antt`. `serve` is served by `omaha_server`: read `specs/Serving.antt`. `history` is
//! `omaha_histories::print_history`, and all others are those of `omaha_commands`.

#![tactic(auto)]

mod running;
mod runtime;
mod serving;
mod unreadable;
mod watched;

pub use crate::running::{Ending, Status, Task, run};
pub use crate::runtime::Runtime;
pub use crate::unreadable::report_unreadable;
pub use crate::watched::Watched;
pub use failures::{Failure, HistoryFault};
pub use kept_records::Stores;
pub use omaha_arguments::{Command, Comparison, Once, Publication, Question, Report, Serve, Walk};
pub use omaha_commands::{AnswerError, answer, report_on, respond};
pub use omaha_histories::{ReportedRecords, ReportingStores};
pub use omaha_server::{Place, ServedPort, ServedPorts, ServerError};
pub use package_files::Folders;
pub use profiles::read_service;
pub use service_desks::{Service, builtin_service};
pub use systems::{EndSigns, LogFile, Sockets, System};
pub use update_client::Connector;
