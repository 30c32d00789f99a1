//! How the page and its tables begin and end.

/// The document up to its title.
pub(crate) const HEAD: &str = "<!doctype html>
<html lang=\"en\">
<head>
<meta charset=\"utf-8\">
<meta http-equiv=\"Content-Security-Policy\" content=\"default-src 'none'; style-src 'unsafe-inline'\">
<meta name=\"viewport\" content=\"width=device-width, initial-scale=1\">
<meta name=\"color-scheme\" content=\"light dark\">
";

/// That the history is unreachable, up to the time since when it is.
pub(crate) const LOST: &str = "<section>
<h2>History unreachable</h2>
<p class=\"note\">No server of the history has replied since ";

/// The rest of that.
pub(crate) const LOST_END: &str =
    " (seconds since 1970). Clients are served what is published here.</p>
</section>
";

/// The section of the mirrors, up to their rows.
pub(crate) const MIRRORS: &str = "<section>
<h2>Mirrors</h2>
<div class=\"wide\"><table class=\"mirrors\">
<thead><tr><th scope=\"col\">Mirror</th><th scope=\"col\">Codebase</th><td></td><th scope=\"col\" class=\"number\">Granted</th><th scope=\"col\" class=\"number\">Budget</th></tr></thead>
<tbody>
";

/// The table of an app's cohorts, up to their rows.
pub(crate) const COHORTS: &str = "<div class=\"wide\"><table class=\"cohorts\">
<thead><tr><th scope=\"col\">Cohort</th><th scope=\"col\">Target</th><th scope=\"col\">Share</th><th scope=\"col\">Held at</th><td></td></tr></thead>
<tbody>
";

/// The table of an app's releases, up to their rows.
pub(crate) const RELEASES: &str = "<div class=\"wide\"><table class=\"releases\">
<thead><tr><th scope=\"col\">Version</th><th scope=\"col\">Package</th><th scope=\"col\" class=\"number\">Bytes</th><td></td></tr></thead>
<tbody>
";

/// That an app has no releases.
pub(crate) const NO_RELEASES: &str = "<p class=\"note\">No releases.</p>
";

/// The table of an app's stuck clients, up to their rows.
pub(crate) const STUCK: &str = "<div class=\"wide\"><table class=\"stuck\">
<thead><tr><th scope=\"col\">Stuck at</th><th scope=\"col\">Clients</th><th scope=\"col\">Why</th></tr></thead>
<tbody>
";

/// That an app has no stuck clients.
pub(crate) const NO_STUCK: &str = "<p class=\"note\">No clients at a release are stuck.</p>
";

/// That stuck clients weren't looked for.
pub(crate) const UNKNOWN_STUCK: &str =
    "<p class=\"note\">The catalogue is too large for this page: <code>omaha review</code> prints the stuck releases.</p>
";

/// The part of a picture, up to its image.
pub(crate) const DRAWING: &str = "<details open>
<summary>Graph</summary>
<div class=\"wide\">";

/// Its end.
pub(crate) const DRAWING_END: &str = "</div>
</details>
";

/// That an app isn't drawn.
pub(crate) const NO_DRAWING: &str =
    "<p class=\"note\">Not drawn here: <code>omaha graph</code> draws the releases.</p>
";

/// The section of the last publishes, up to their rows.
pub(crate) const PUBLISHES: &str = "<section>
<h2>Last publishes</h2>
<div class=\"wide\"><table class=\"publishes\">
<thead><tr><th scope=\"col\">Edition</th><th scope=\"col\" class=\"number\">Seconds since 1970</th><th scope=\"col\" class=\"number\">Edits</th></tr></thead>
<tbody>
";

/// That nothing was published.
pub(crate) const NO_PUBLISHES: &str = "<section>
<h2>Last publishes</h2>
<p class=\"note\">None since the start.</p>
</section>
";

/// The section of the operator's calls, up to their rows.
pub(crate) const CALLS: &str = "<section>
<h2>Operator's calls since the start</h2>
<div class=\"wide\"><table class=\"calls\">
<tbody>
";

/// The end of a table.
pub(crate) const TABLE_END: &str = "</tbody>
</table></div>
";

/// The end of a row, and of its last cell.
pub(crate) const ROW_END: &str = "</td></tr>
";

/// The end of the document.
pub(crate) const END: &str = "</main>
</body>
</html>
";
