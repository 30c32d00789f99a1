//! The pages that an operator's address serves: its health, its metrics, and a page of the published edition for
//! people.
//!
//! `page_at` finds the page of a path, and makes it of what is `Shown`: the apps of the published catalogue with an
//! `AppSight` each, the edition's number, the mirrors with their present budgets, the `Counts` of the operator's own
//! calls and the last `Publishes`. `health_string`, `metrics_string` and `page_string` make the bodies. Read
//! `specs/Paths.antt`, `specs/Metrics.antt` and `specs/Pages.antt`.
//!
//! `app_sights` makes what is shown of the releases of each app: the clients who are stuck, and a picture.
//!
//! It knows no connection, changes nothing, and reads no clock.

#![tactic(auto)]

mod app_sights;
mod counts;
mod families;
mod headings;
mod health;
mod html;
mod labels;
mod metric;
mod metrics;
mod page;
mod paths;
mod publishes;
mod samples;
mod sections;
mod shown;
mod sights;
mod spending;
mod style;
mod tables;
mod traffic;

pub use crate::app_sights::sights_of;
pub use crate::counts::{Counts, Outcome, Reach};
pub use crate::health::{health_string, status_string};
pub use crate::metrics::metrics_string;
pub use crate::page::page_string;
pub use crate::paths::page_at;
pub use crate::publishes::{Publish, Publishes};
pub use crate::shown::Shown;
pub use crate::sights::{AppSight, StuckClients, StuckList};
