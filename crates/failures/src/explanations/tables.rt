// The tables of entries, each as a slice.

ghost use Rattle.std.specs.Prelude.{◌≡◌, map};
ghost use Rattle.failures.specs.Explanations.{entries_of};
ghost use Rattle.failures.specs.declared.explanations.budgets.TheConstants.{BUDGETS};
ghost use Rattle.failures.specs.declared.explanations.certificate_codes.TheConstants.{CERTIFICATES};
ghost use Rattle.failures.specs.declared.explanations.edits.TheConstants.{EDITS};
ghost use Rattle.failures.specs.declared.explanations.lines.TheConstants.{LINES};
ghost use Rattle.failures.specs.declared.explanations.profiles.TheConstants.{PROFILES};
ghost use Rattle.failures.specs.declared.explanations.requests.TheConstants.{REQUESTS};
ghost use Rattle.failures.specs.declared.explanations.walks.TheConstants.{WALKS};
ghost use Rattle.failures.specs.declared.explanations.words.TheConstants.{WORDS};

use crate::explanations::budgets::BUDGETS;
use crate::explanations::certificate_codes::CERTIFICATES;
use crate::explanations::edits::EDITS;
use crate::explanations::lines::LINES;
use crate::explanations::profiles::PROFILES;
use crate::explanations::requests::REQUESTS;
use crate::explanations::walks::WALKS;
use crate::explanations::words::WORDS;

/// The entries of rejected edits.
pub(crate) fn edits() -> &'static [(&'static str, &'static str)]
    ensures { entries_of result.now ≡ map (λ entry. (entry.0.now, entry.1.now)) EDITS }
{
    &EDITS
}

/// The entries of raises of budgets.
pub(crate) fn budgets() -> &'static [(&'static str, &'static str)]
    ensures { entries_of result.now ≡ map (λ entry. (entry.0.now, entry.1.now)) BUDGETS }
{
    &BUDGETS
}

/// The entries of profiles and scripts.
pub(crate) fn profiles() -> &'static [(&'static str, &'static str)]
    ensures { entries_of result.now ≡ map (λ entry. (entry.0.now, entry.1.now)) PROFILES }
{
    &PROFILES
}

/// The entries of requests.
pub(crate) fn requests() -> &'static [(&'static str, &'static str)]
    ensures { entries_of result.now ≡ map (λ entry. (entry.0.now, entry.1.now)) REQUESTS }
{
    &REQUESTS
}

/// The entries of certificates.
pub(crate) fn certificate_codes() -> &'static [(&'static str, &'static str)]
    ensures { entries_of result.now ≡ map (λ entry. (entry.0.now, entry.1.now)) CERTIFICATES }
{
    &CERTIFICATES
}

/// The entries of walks.
pub(crate) fn walks() -> &'static [(&'static str, &'static str)]
    ensures { entries_of result.now ≡ map (λ entry. (entry.0.now, entry.1.now)) WALKS }
{
    &WALKS
}

/// The entries of other words.
pub(crate) fn words() -> &'static [(&'static str, &'static str)]
    ensures { entries_of result.now ≡ map (λ entry. (entry.0.now, entry.1.now)) WORDS }
{
    &WORDS
}

/// The entries of lines that begin with a word.
pub(crate) fn lines() -> &'static [(&'static str, &'static str)]
    ensures { entries_of result.now ≡ map (λ entry. (entry.0.now, entry.1.now)) LINES }
{
    &LINES
}
