ghost use Rattle.std.specs.Prelude.{◌≡◌, max, length, true, IfNone, IfSome};
ghost use Rattle.catalogue.specs.Histories.{History};
ghost use Rattle.publisher.specs.Beginnings.{StartsWith};
ghost use Rattle.publisher.specs.Heard.{IsLinked};
ghost use Rattle.publisher.specs.Sights.{Allows, Learns, fresh};

use crate::press::Press;
use crate::receipt::Receipt;
use crate::view::View;

// rule: Meeting of a press and a view
/// Notes a view of the press's history, and has it enter and leave one edition.
///
/// Returns the view, with the number that it had seen before and the number of the published edition. If there is no
/// entry, it returns `None` in place of the numbers, and the view has learnt the press's history.
pub fn meet(press: &Press, view: View) -> (View, Option<(u64, u64)>)
    ensures numbers { IfSome result.1 (λ n. (n.0 ≡ view.seen) × (n.1 ≡ length press.now)) }
    ensures met { IfSome result.1 (λ _. (h : History) × (result.0 ≡ fresh h) × Allows view h × StartsWith h press.now) }
    ensures linked { IfSome result.1 (λ _. (seen : History) → view ≡ fresh seen → IsLinked seen press.now) }

    ensures learnt { IfNone result.1 (Learns view press.now result.0) }
    ensures kept { IfNone result.1 (result.0.seen ≡ max view.seen (length press.now)) }
{
    let mut view = view;
    let before = view.seen();
    view.hear(press.published());
    match view.enter() {
        Ok(entered) => (entered.leave(), Some((before, press.edition().number()))),
        Err(view) => (view, None),
    }
}

// rule: Meeting of a press and a view
/// Whether a view may enter the edition of a receipt, as an entry finds out. It is not found if there is no entry, or a
/// later edition is published.
///
/// Meant for a receipt of what the press shows, before the press ends.
pub fn may_enter(view: View, receipt: &Receipt) -> bool
    ensures { result ≡ true → Allows view receipt.now }
{
    let mut view = view;
    view.learn(receipt);
    match view.enter() {
        Ok(entered) => {
            let is_same = entered.edition().number() == receipt.edition();
            let _view = entered.leave();
            is_same
        }
        Err(_) => false,
    }
}
