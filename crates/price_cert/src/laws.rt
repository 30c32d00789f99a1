//! What holds of all certified tables, each law as a clause of a function.

ghost use Rattle.price_cert.specs.Best.{BestTablesAreCertified, ListsHaveBest};
ghost use Rattle.price_cert.specs.Examples.{ExampleIsWorked};
ghost use Rattle.price_cert.specs.Laws.{CertifiedPricesAreLeast, CertifiedPricesAreSmall, CertifiedTablesAreOne, PairsDecideBounds};

/// States that the prices of a certified table are the least sums, and that a release without a price
/// has no chain.
pub fn least()
    ensures { CertifiedPricesAreLeast }
{
    payload_graph::laws::nearer();
}

/// States that the prices of a certified table are small: at most 511 times 2^40 bytes.
pub fn small()
    ensures { CertifiedPricesAreSmall }
{
    payload_graph::laws::nearer();
    payload_graph::laws::sized();
}

/// States that a table whose rows name the best payloads of their releases is certified.
pub fn best()
    ensures { BestTablesAreCertified }
{}

/// States that each list of payloads has a best one by a table, or none that leads to a priced release.
pub fn best_payloads()
    ensures { ListsHaveBest }
{}

/// States that a graph has one certified table, whoever made it.
pub fn unique()
    ensures { CertifiedTablesAreOne }
{
    payload_graph::laws::nearer();
}

/// States that a row keeps C2 exactly if each pair of its release and another one does.
pub fn pairs()
    ensures { PairsDecideBounds }
{}

/// States which rules the tables of a small app break, worked by hand.
pub fn example()
    ensures { ExampleIsWorked }
{}
