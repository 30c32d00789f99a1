//! What certified tables say of tracks, each law as a clause of a function.

ghost use Rattle.quotes.specs.ByRows.{CertifiedRowsQuote};
ghost use Rattle.quotes.specs.Sums.{PricesAreLeastOnTracks};

/// States that the prices of a track's graph are the least sums of permitted payloads from each release,
/// and that no chain of permitted payloads leads from a release without a price.
pub fn least()
    ensures { PricesAreLeastOnTracks }
{
    catalogue::version_laws::order();
    payload_graph::laws::fulls();
    payload_graph::laws::differs();
}

// rule: Quote by rows
/// States that the rows of a certified table of a track say what the clients at each place are offered, at a
/// release and from outside.
pub fn rows()
    ensures { CertifiedRowsQuote }
{
    catalogue::version_laws::order();
    payload_graph::laws::fulls();
    payload_graph::laws::differs();
    price_cert::laws::least();
}
