//! What holds of all graphs, as the clause of a function.

ghost use Rattle.solver.specs.Laws.{GraphsHaveTables};

/// States that each graph has a certified table.
pub fn tables()
    ensures { GraphsHaveTables }
{
    payload_graph::laws::nearer();
    payload_graph::laws::sized();
    price_cert::laws::best();
    price_cert::laws::best_payloads();
}
