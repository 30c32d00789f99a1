//! The arguments of the program `omaha`: what they ask it to do.
//!
//! `read_arguments` reads them with `clap` and gives an `Invocation`, or why there is none: the help or the version was
//! asked for, or they are invalid. What they mean is said by `specs/Commands.antt` and, for the commands that report on
//! a profile, `specs/ReportArguments.antt`; for `serve`, `specs/ServeArguments.antt`; for `publish`, `raise`, `dump`
//! and `status`, `specs/OperatorArguments.antt`; for `stop`, `specs/StopArguments.antt`; for `script`,
//! `specs/ScriptArguments.antt`; for `history`, `specs/HistoryArguments.antt`; for `review`,
//! `specs/ReviewArguments.antt`; for `graph`, `specs/GraphArguments.antt`; for `walk`, `specs/WalkArguments.antt`. The
//! path of a history may be one of `etcd_records`. How they are rejected is said by `specs/Errors.antt`.
//!
//! It opens no file and carries nothing out.

#![tactic(auto)]

mod addresses;
mod command;
mod command_line;
mod error;
mod graph_arguments;
mod history_arguments;
mod history_paths;
mod once_arguments;
mod operator_arguments;
mod options;
mod rejections;
mod report_arguments;
mod review_arguments;
mod script_arguments;
mod serve_arguments;
mod stop_arguments;
mod walk_arguments;

pub use crate::command::{
    Base, Command, Comparison, Graph, HistoryAction, HistoryAsked, Invocation, Once, Publication,
    Question, Raise, Report, Review, Script, Serve, ServerAsked, Source, Stop, Walk,
};
pub use crate::command_line::{VERSION, read_arguments};
pub use crate::error::ArgumentError;
pub use crate::options::number_of;
