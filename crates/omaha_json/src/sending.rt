//! Sends members of objects to a serializer.

ghost use Rattle.std.specs.Prelude.{OnOk};
ghost use Rattle.serde_json.specs.Data.{number, string, unsigned};
ghost use Rattle.serde_json.specs.Events.{SendsValue};
ghost use Rattle.omaha_json.specs.ReplyWriting.{status_data};
ghost use Rattle.omaha_json.specs.Sending.{SendsMember};

use serde::Serializer;
use values::Text;

/// Sends a member that is a string.
pub(crate) fn send_str<S: Serializer>(out: &mut S, name: &str, value: &str) -> Result<(), S::Error>
    ensures { OnOk result
        (SendsMember name.now (string value.now) (S.written out.old) (S.written out.new)) }
{
    out.key(name)?;
    out.str(value)
}

/// Sends a member that is a `Text`.
pub(crate) fn send_string<S: Serializer>(
    out: &mut S,
    name: &str,
    value: &Text,
) -> Result<(), S::Error>
    ensures { OnOk result
        (SendsMember name.now (string value.now) (S.written out.old) (S.written out.new)) }
{
    send_str(out, name, value.as_str())
}

/// Sends a member that is a whole number.
pub(crate) fn send_number<S: Serializer>(
    out: &mut S,
    name: &str,
    value: u64,
) -> Result<(), S::Error>
    ensures { OnOk result
        (SendsMember name.now (number (unsigned value)) (S.written out.old) (S.written out.new)) }
{
    out.key(name)?;
    out.u64(value)
}

/// Sends an object whose one member is a status.
pub(crate) fn send_status<S: Serializer>(out: &mut S, status: &str) -> Result<(), S::Error>
    ensures { OnOk result
        (SendsValue (status_data status.now) (S.written out.old) (S.written out.new)) }
{
    out.begin_map(Some(1))?;
    send_str(out, "status", status)?;
    out.end_map()
}
