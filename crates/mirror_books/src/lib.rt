//! The book of one mirror: its budget, and the bytes that it was granted.
//!
//! A `Book` keeps its total within its budget, whoever holds it: `grant` grants bytes to a `Share` if they fit, and
//! `raise` raises the budget by the book's one `Raiser`. The total is the sum of all shares of the book's ledger. Read
//! `specs/Budgets.antt` for what a grant and a raise do.
//!
//! It knows no mirror and no thread: `mirror_ledger` has a book for each mirror, which threads lock.

#![tactic(auto)]

mod book;

pub use crate::book::{Book, BudgetName, Lower, NoRoom, Raiser, Share};
