//! Budgets of mirrors: how many bytes each mirror may be granted in all.
//!
//! `open_books` makes a `Book` of `mirror_books` for each mirror, under a `Mutex` of its own, `Shares` for each worker, and
//! the `Raisers` of all books. `Shares::grant_first` grants bytes on the first mirror that has room for them; `close`
//! gathers all shares and the raisers, and returns each mirror's total, which is the sum of its shares, and the mirrors
//! with their budgets at the end. A book keeps its total within its budget. A `Hand` is a `Till` over the books: what
//! serves update checks knows its till alone. A `Treasurer` is the `Budgets` of the books: it alone has the raisers, so it
//! knows the present budgets, and raises them. `work_with_tills` does all this for a `Work`, and hides the names of the
//! ledgers; `run_with_tills` does it for jobs in threads, beside a job that may raise budgets, and compares what was
//! rejected with the totals.
//!
//! Read `specs/Raising.antt` for what a raise comes to, `specs/Asks.antt` for how shares follow from the asks of a
//! worker, and `specs/Tills.antt` for what work comes to.
//!
//! It does not measure downloads: a mirror's total counts what clients were offered.

#![tactic(auto)]

mod asks;
mod books;
mod budgets;
mod closing;
mod job;
mod opening;
mod parts;
mod raise_error;
mod raisers;
mod rejected;
mod run_error;
mod running;
mod till;
mod working;

pub use crate::asks::AskList;
pub use crate::books::{Books, Shares};
pub use crate::budgets::{Budgets, Treasurer};
pub use crate::closing::close;
pub use crate::job::{BudgetJob, TillJob};
pub use crate::opening::{Blanks, Opened, open_books};
pub use crate::raise_error::RaiseError;
pub use crate::raisers::Raisers;
pub use crate::run_error::RunError;
pub use crate::running::{Ran, run_with_tills};
pub use crate::till::{Hand, Till};
pub use crate::working::{Work, work_with_tills};
pub use mirror_books::{Book, BudgetName, Lower, NoRoom, Raiser, Share};
