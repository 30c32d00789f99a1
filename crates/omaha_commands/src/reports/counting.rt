//! What an edition has, counted.

ghost use Rattle.std.specs.Prelude.{◌≡◌, IfOk, length, string_bytes, Some};
ghost use Rattle.editions.specs.Editions.{content_of};
ghost use Rattle.omaha_commands.specs.Summaries.{counts_of, counts_string, summary_of, summary_string};

use catalogue::Catalogue;
use editions::Edition;
use std::alloc::{AllocError, Global};
use std::fmt;

/// How many releases, differentials and cohorts all apps have.
#[derive(Clone, Copy)]
struct Counts {
    releases: usize,
    diffs: usize,
    cohorts: usize,
}

impl fmt::Display for Counts {
    ghost output = { λ counts. Some (counts_string counts) };

    fn fmt<W: fmt::Write>(&self, f: &mut fmt::Formatter<W>) -> fmt::Result {
        let releases = self.releases;
        let diffs = self.diffs;
        let cohorts = self.cohorts;
        write!(
            f,
            "{releases} releases, {diffs} differentials, {cohorts} cohorts"
        )
    }
}

fn counts_of(catalogue: &Catalogue) -> Counts
    ensures { result ≡ counts_of catalogue.now }
{
    catalogue.validity();
    let mut counts = Counts {
        releases: 0,
        diffs: 0,
        cohorts: 0,
    };
    for app in catalogue.apps() {
        counts.releases += app.releases.as_slice().len();
        counts.diffs += app.diffs.as_slice().len();
        counts.cohorts += app.cohorts.as_slice().len();
    }
    counts
}

// What an edition has.
#[derive(Clone, Copy)]
struct Totals {
    number: u64,
    apps: usize,
    counts: Counts,
    tables: usize,
}

impl fmt::Display for Totals {
    ghost output = { λ totals. Some (summary_string totals) };

    fn fmt<W: fmt::Write>(&self, f: &mut fmt::Formatter<W>) -> fmt::Result {
        let number = self.number;
        let apps = self.apps;
        let counts = self.counts;
        let tables = self.tables;
        write!(
            f,
            "edition {number}: {apps} apps, {counts}, {tables} tables\n"
        )
    }
}

// rule: Summary of an edition
/// Makes the line that counts what an edition has.
///
/// It says the edition's number, and how many apps, releases, differentials, cohorts and tables it has; it ends
/// with a line feed. Out of memory is the only error.
pub fn summary(alloc: Global, edition: &Edition) -> Result<String, AllocError>
    ensures { IfOk result (λ line. string_bytes line ≡ summary_of (length edition.now) (content_of edition.now)) }
{
    let catalogue = edition.catalogue();
    let totals = Totals {
        number: edition.number(),
        apps: catalogue.apps().len(),
        counts: counts_of(catalogue),
        tables: edition.tables().len(),
    };
    format!(in alloc; "{totals}")
}
