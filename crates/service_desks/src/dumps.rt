// The profile of what is published.

ghost use Rattle.http_desks.specs.Calls.{answer_in};
ghost use Rattle.profile_toml.specs.Laws.{AreMirrors};
ghost use Rattle.service_desks.specs.Operators.{Dumps};

use http_desks::{Answer, DeskStatus, Off};
use mirror_ledger::Budgets;
use profile_toml::write_profile;
use publisher::Press;
use std::alloc::Global;

// rule: Dump
/// The reply with the profile of the published edition's catalogue and of the mirrors, with their present budgets.
pub(crate) fn dump<B: Budgets>(alloc: Global, press: &Press, budgets: &B) -> Result<Answer, Off>
    requires { AreMirrors (B.present budgets.now) }
    ensures { Dumps (B.present budgets.now) press.now (answer_in result) }
{
    let Ok(mirrors) = budgets.mirrors(alloc) else {
        return Err(Off::Memory);
    };
    match write_profile(alloc, press.edition().catalogue(), &mirrors) {
        Ok(profile) => Ok(Answer {
            status: DeskStatus::Success,
            body: profile,
        }),
        Err(_) => Err(Off::Memory),
    }
}
