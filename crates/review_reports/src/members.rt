// JSON objects that are written by a table of their members, so that no function owns a value of each.

ghost use Rattle.std.specs.Prelude.{◌≡◌, ◌++◌, IfOk, OnOk, false};
ghost use Rattle.serde_json.specs.Data.{put as with_member, string};
ghost use Rattle.serde_json.specs.View.{members_view, view};
ghost use Rattle.serde_json.specs.Written.{has_float};
ghost use Rattle.review_reports.specs.Members.{object_of, with_one};
ghost use Rattle.review_reports.specs.Objects.{bytes_data, object_line};

use serde_json::{Map, Value, put};
use std::alloc::{AllocError, Global};

/// A member of an object: its name, and what it is.
#[derive(Clone, Copy)]
pub(crate) enum Member<'a> {
    /// A string.
    String(&'a str, &'a str),
    /// A whole number.
    Whole(&'a str, u64),
    /// Whether something is so.
    Boolean(&'a str, bool),
    /// Bytes, or `null`.
    Bytes(&'a str, Option<u64>),
}

// Bytes as a value.
fn bytes_value(bytes: Option<u64>) -> Value
    ensures { view result ≡ bytes_data bytes }
{
    match bytes {
        Some(bytes) => Value::from(bytes),
        None => Value::Null,
    }
}

// Adds a member of a name.
fn put_string(
    alloc: Global,
    members: &mut Map<String, Value>,
    name: &str,
    text: &str,
) -> Result<(), AllocError>
    ensures { OnOk result (members_view members.new.entries ≡ with_member name.now (string text.now) (members_view members.old.entries)) }
{
    match Value::try_from_str(alloc, text) {
        Ok(value) => put(members, alloc, name, value),
        Err(error) => Err(error),
    }
}

// Adds a member.
fn put_one(
    alloc: Global,
    members: &mut Map<String, Value>,
    one: Member<'_>,
) -> Result<(), AllocError>
    ensures { OnOk result (members_view members.new.entries ≡ with_one (members_view members.old.entries) one.entry) }
{
    match one {
        Member::String(name, text) => put_string(alloc, members, name, text),
        Member::Whole(name, amount) => put(members, alloc, name, Value::from(amount)),
        Member::Boolean(name, is_so) => put(members, alloc, name, Value::from(is_so)),
        Member::Bytes(name, bytes) => put(members, alloc, name, bytes_value(bytes)),
    }
}

// The object with the members of a table.
fn object_of(alloc: Global, table: &[Member<'_>]) -> Result<Value, AllocError>
    ensures { IfOk result (λ value. view value ≡ object_of table.now) }
{
    let mut members = Map::new(alloc);
    for one in table {
        put_one(alloc, &mut members, *one)?;
    }
    Ok(Value::Object(members))
}

// Adds an object without a float, on a line of its own.
#[tactic(auto, unfolding(crate::specs::Objects::object_line))]
fn push_value(alloc: Global, text: &mut Vec<u8>, value: &Value) -> Result<(), AllocError>
    requires { has_float (view value.now) ≡ false }
    ensures { OnOk result (text.new.items ≡ text.old.items ++ object_line (view value.now)) }
{
    let line = value.to_vec(alloc)?;
    text.extend_from_slice(line.as_slice())?;
    text.push(b'\n')?;
    Ok(())
}

/// Adds the object with the members of a table, on a line of its own.
#[tactic(auto, using(crate::proofs::MemberLemmas::plain))]
pub(crate) fn push_object(
    alloc: Global,
    text: &mut Vec<u8>,
    table: &[Member<'_>],
) -> Result<(), AllocError>
    ensures { OnOk result (text.new.items ≡ text.old.items ++ object_line (object_of table.now)) }
{
    let value = object_of(alloc, table)?;
    push_value(alloc, text, &value)
}
