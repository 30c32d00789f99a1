//! The metrics: their names, their types and what they are.

ghost use Rattle.std.specs.Prelude.{◌≡◌};
ghost use Rattle.operator_pages.specs.MetricNames.{help_of, kind_of, name_of};

/// A metric.
#[derive(Clone, Copy)]
pub(crate) enum Metric {
    /// The version of the program.
    Build,
    /// When the server started.
    Started,
    /// The number of the published edition.
    Edition,
    /// The scripts and the records of other servers, by what they came to.
    Publishes,
    /// The raises of budgets.
    Raises,
    /// Whether the history replied when it was last asked.
    Reachable,
    /// The budgets of the mirrors.
    Budget,
    /// The bytes that the mirrors granted.
    Granted,
    /// How many apps there are.
    Apps,
    /// How many releases each app has.
    Releases,
    /// The share of each cohort.
    Share,
    /// Whether a client's hint may name a cohort.
    Open,
    /// The replies to clients, by status.
    Requests,
    /// The update checks, by cohort and outcome.
    Checks,
    /// The update checks that no cohort's count has.
    Uncounted,
    /// The bytes that were offered, by mirror and kind of payload.
    Offered,
    /// The clients' connections that are open.
    Connections,
    /// The downloads that were cut off.
    Failures,
}

// rule: Metric
/// The name of a metric.
pub(crate) fn name_of(metric: Metric) -> &'static str
    ensures { result.now ≡ name_of metric }
{
    match metric {
        Metric::Build => "omaha_build_info",
        Metric::Started => "process_start_time_seconds",
        Metric::Edition => "omaha_edition",
        Metric::Publishes => "omaha_publishes_total",
        Metric::Raises => "omaha_raises_total",
        Metric::Reachable => "omaha_history_reachable",
        Metric::Budget => "omaha_mirror_budget_bytes",
        Metric::Granted => "omaha_mirror_granted_bytes",
        Metric::Apps => "omaha_apps",
        Metric::Releases => "omaha_releases",
        Metric::Share => "omaha_cohort_share",
        Metric::Open => "omaha_cohort_open",
        Metric::Requests => "omaha_http_requests_total",
        Metric::Checks => "omaha_update_checks_total",
        Metric::Uncounted => "omaha_uncounted_update_checks_total",
        Metric::Offered => "omaha_offered_bytes_total",
        Metric::Connections => "omaha_connections",
        Metric::Failures => "omaha_package_failures_total",
    }
}

/// The type of a metric.
pub(crate) fn kind_of(metric: Metric) -> &'static str
    ensures { result.now ≡ kind_of metric }
{
    match metric {
        Metric::Publishes | Metric::Raises => "counter",
        Metric::Requests | Metric::Checks | Metric::Uncounted => "counter",
        Metric::Offered | Metric::Failures => "counter",
        _ => "gauge",
    }
}

/// What a metric is.
pub(crate) fn help_of(metric: Metric) -> &'static str
    ensures { result.now ≡ help_of metric }
{
    match metric {
        Metric::Build => "Version of the program.",
        Metric::Started => "When the server started, in seconds since 1970.",
        Metric::Edition => "Number of the published edition.",
        Metric::Publishes => "Scripts that operators sent and records of other servers, by result.",
        Metric::Raises => "Budgets that operators raised.",
        Metric::Reachable => "Whether the history replied when it was last asked.",
        Metric::Budget => "Present budget of a mirror.",
        Metric::Granted => "Bytes that a mirror granted since the start.",
        Metric::Apps => "Apps of the published catalogue.",
        Metric::Releases => "Releases of an app.",
        Metric::Share => "Clients of a cohort that have its target, of 1000.",
        Metric::Open => "Whether a client may ask for the cohort.",
        Metric::Requests => "Replies to clients, by status.",
        Metric::Checks => "Update checks of clients, by cohort and outcome.",
        Metric::Uncounted => "Update checks of cohorts that were added beyond the room for counts.",
        Metric::Offered => "Bytes of packages that were offered, by mirror and kind.",
        Metric::Connections => "Open connections of clients.",
        Metric::Failures => "Downloads that were cut off as the package is missing or another.",
    }
}
