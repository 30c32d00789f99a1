//! The commands of `omaha` that serve nothing.
//!
//! `respond` is `once`: read `specs/Once.antt`. `report_on` does `check`, `certify` and `verify`: read
//! `specs/Reports.antt`; `review_on` is `review`: read `specs/Reviewing.antt`; `graph_on` is `graph`: read
//! `specs/Graphing.antt`. `compare_on` is `check` with a folder of packages, and `describe_files` describes files, by
//! `package_files`: read `specs/Comparing.antt` and `specs/Describing.antt`. `print_script` is `script`: read
//! `specs/Scripting.antt`. A script is applied to an edition as `specs/Applying.antt` says. `explain_code` prints what
//! `failures` says of a code.
//!
//! `walk_on` is walked by `update_client`: read `specs/Walking.antt`; `publish_on`, `raise_on`, `dump_on` and
//! `status_on` post by it: read `specs/Operating.antt`, for a script that is only checked `specs/Judging.antt`, and for
//! its packages `specs/Stocking.antt`. What the listener may reply is in `specs/Forms.antt`, and `laws` says that an
//! operator's desk replies nothing else. `stop_on` also waits for the end of a server: read `specs/Stopping.antt`.
//!
//! `reports` has what is reported of an edition, and the check of a table by several threads.
//!
//! It reads no arguments, and exits with no status.

#![tactic(auto)]

mod applying;
mod asking;
mod comparing;
mod describing;
mod explaining;
mod fetching;
mod forms;
mod graphing;
mod judging;
mod keeping;
pub mod laws;
mod once;
mod operating;
mod reporting;
mod reports;
mod reviewing;
mod script_file;
mod scripting;
mod shown_reply;
mod stocking;
mod stopping;
mod walking;

pub use crate::comparing::compare_on;
pub use crate::describing::describe_files;
pub use crate::explaining::explain_code;
pub use crate::graphing::graph_on;
pub use crate::once::{AnswerError, answer, respond};
pub use crate::operating::{Manner, dump_on, publish_on, raise_on, status_on};
pub use crate::reporting::report_on;
pub use crate::reports::{certify, check_parallel, summary, verify};
pub use crate::reviewing::review_on;
pub use crate::scripting::print_script;
pub use crate::stopping::stop_on;
pub use crate::walking::walk_on;
