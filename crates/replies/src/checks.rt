//! Which apps of a request want an update.

ghost use Rattle.std.specs.Prelude.{◌≡◌};
ghost use Rattle.replies.specs.Plans.{is_open, wants_update};

use omaha_json::{AppAsk, Check};

fn is_open(check: &Check) -> bool
    ensures { result ≡ is_open check.now }
{
    !check.disabled
}

// rule: App that wants an update
/// Whether an app's update check is there and is not disabled.
pub(crate) fn wants_update(ask: &AppAsk) -> bool
    ensures { result ≡ wants_update ask.now }
{
    match &ask.check {
        Some(check) => is_open(check),
        None => false,
    }
}
