// What is reported of a call, by what was heard.

ghost use Rattle.std.specs.Prelude.{◌≡◌};
ghost use Rattle.etcd_records.specs.Appending.{ReadsBy, ReadsFound, append_result, held_result};
ghost use Rattle.etcd_records.specs.Asking.{heard_of};
ghost use Rattle.std.specs.Prelude.{option_map};

use crate::asking::Asked;
use crate::keys::read_value;
use crate::replies::{found_in, held_in, is_created};
use kept_records::{AppendFault, Cause, ReadFault, Record};
use std::alloc::Global;

fn held_result(value: &str, in_doubt: bool, held: Option<&str>) -> Result<(), AppendFault>
    ensures { result ≡ held_result value.now in_doubt (option_map (λ text. text.now) held.entry) }
{
    match held {
        None => Err(AppendFault::Unknown(Cause::Unreadable)),
        Some(held) if in_doubt && held == value => Ok(()),
        Some(_) => Err(AppendFault::Taken),
    }
}

// rule: Append to etcd
/// Returns what is reported of an append of a value by what was heard.
pub(crate) fn append_result(value: &str, asked: &Asked) -> Result<(), AppendFault>
    ensures { result ≡ append_result value.now (heard_of asked.now) }
{
    match asked {
        Asked::Replied(reply, in_doubt) => {
            if is_created(reply) {
                Ok(())
            } else {
                held_result(value, *in_doubt, held_in(reply))
            }
        }
        Asked::Unreplied(cause, in_doubt) => {
            if *in_doubt {
                Err(AppendFault::Unknown(*cause))
            } else {
                Err(AppendFault::Failed(*cause))
            }
        }
        Asked::Memory => Err(AppendFault::Unknown(Cause::Memory)),
    }
}

fn read_found(alloc: Global, found: Option<&str>) -> Result<Option<Record>, ReadFault>
    ensures { ReadsFound (option_map (λ text. text.now) found.entry) result }
{
    let Some(value) = found else {
        return Ok(None);
    };
    match read_value(alloc, value) {
        Ok(Some(next)) => Ok(Some(next)),
        Ok(None) => Err(ReadFault::Failed(Cause::Damaged)),
        Err(_) => Err(ReadFault::Failed(Cause::Memory)),
    }
}

// rule: Read from etcd
/// Returns what is reported of a read by what was heard.
pub(crate) fn read_result(alloc: Global, asked: &Asked) -> Result<Option<Record>, ReadFault>
    ensures { ReadsBy (heard_of asked.now) result }
{
    match asked {
        Asked::Replied(reply, _) => read_found(alloc, found_in(reply)),
        Asked::Unreplied(cause, _) => Err(ReadFault::Failed(*cause)),
        Asked::Memory => Err(ReadFault::Failed(Cause::Memory)),
    }
}
