//! Whether what was rejected had no room.

ghost use Rattle.std.specs.Prelude.{All, IsTrue, map};
ghost use Rattle.mirror_ledger.specs.Asks.{AreGrantedBelow};
ghost use Rattle.mirror_ledger.specs.Tills.{AreFull};

use crate::till::Hand;
use catalogue::Mirror;
use mirror_books::BudgetName;

/// The least bytes that were rejected, by the tills of all workers: each ask for fewer was granted.
pub(crate) fn all_granted_below<A: BudgetName, B: BudgetName, C: BudgetName, D: BudgetName>(
    tills: &[Hand<'_, A, B, C, D>],
) -> u64
    ensures { All (AreGrantedBelow result) (map (λ t. t.shares.asks) tills.now) }
{
    let mut least = u64::MAX;
    for till in tills {
        least = least.min(till.shares.asks.granted_below());
    }
    least
}

// rule: Rejected asks
/// Whether no mirror has room for the bytes beside its total, in its first budget.
pub(crate) fn are_full(mirrors: &[Mirror], totals: &[u64], bytes: u64) -> bool
    ensures { IsTrue result → AreFull mirrors.now totals.now bytes }
{
    for index in 0..mirrors.len() {
        let Some(total) = totals.get(index) else {
            return false;
        };
        if mirrors[index].budget >= total.saturating_add(bytes) {
            return false;
        }
    }
    true
}
