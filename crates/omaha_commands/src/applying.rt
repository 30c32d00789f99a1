// What a script makes of an edition.

ghost use Rattle.omaha_commands.specs.Applying.{Applies, IsNext};

use crate::reviewing::failure_of;
use catalogue::Batch;
use editions::Edition;
use failures::Failure;

// The edition that edits make of another one.
fn next_edition(edition: &Edition, batch: Batch) -> Result<Edition, Failure>
    ensures { IsNext edition.now batch result }
{
    match edition.next(batch) {
        Ok(next) => Ok(next),
        Err(error) => Err(failure_of(error)),
    }
}

// rule: Checked script
/// The edition that a script makes of the edition of a number.
///
/// Fails with `Stale` if the script is written for another one; else with its first rejected edit.
pub(crate) fn apply(
    edition: &Edition,
    number: u64,
    script: (u64, Batch),
) -> Result<Edition, Failure>
    ensures { Applies edition.now number script result }
{
    let (base, batch) = script;
    if base == number {
        next_edition(edition, batch)
    } else {
        Err(Failure::Stale(number))
    }
}
