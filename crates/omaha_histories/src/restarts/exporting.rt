// The profile that records lead to.

ghost use Rattle.std.specs.Prelude.{◌≡◌, ◌≤◌, IfErr, IfOk, take};
ghost use Rattle.omaha_histories.specs.Exporting.{IsExport};
ghost use Rattle.omaha_histories.specs.Restarting.{IsFaultOf};

use crate::restarts::fault::RestoreError;
use crate::restarts::restoring::{Restored, restore};
use kept_records::{Kind, Record};
use par_tables::{Free, Gate};
use profile_toml::write_profile;
use std::alloc::Global;
use std::thread::Threads;

/// Writes the profile of what records lead to: its catalogue, and its mirrors with their budgets.
///
/// The errors are those of `restore`.
pub fn export<R: Threads>(
    rt: &R,
    alloc: Global,
    records: &[Record],
) -> Result<Vec<u8>, RestoreError>
    ensures ok { IfOk result (λ text. IsExport records.now text.items) }
    ensures err { IfErr result (IsFaultOf records.now) }
{
    let Restored { edition, mirrors } = restore(rt, alloc, records, 1, &Free)?;
    let text = write_profile(alloc, edition.catalogue(), &mirrors)?;
    Ok(text)
}
