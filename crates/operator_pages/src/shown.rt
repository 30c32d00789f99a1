use crate::counts::Counts;
use crate::publishes::Publish;
use crate::sights::AppSight;
use catalogue::{App, Mirror};
use tallies::Totals;

/// What the pages are made of.
#[derive(Clone, Copy)]
pub struct Shown<'a> {
    /// The apps of the published catalogue.
    pub apps: &'a [App],
    /// What is seen of the releases of each app, in the same order.
    pub sights: &'a [AppSight],
    /// The number of the published edition.
    pub edition: u64,
    /// The mirrors with their present budgets.
    pub mirrors: &'a [Mirror],
    /// How many bytes each mirror granted so far, in the same order.
    pub granted: &'a [u64],
    /// What the operator's calls came to.
    pub counts: Counts,
    /// Whether the server was asked to end.
    pub ending: bool,
    /// The last publishes, the newest first.
    pub publishes: &'a [Publish],
    /// The version of the server's program.
    pub version: &'a str,
    /// The address at which clients are served.
    pub address: &'a str,
    /// What the workers counted, for these apps and mirrors.
    pub totals: &'a Totals,
}
