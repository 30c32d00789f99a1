// The command `walk`.

ghost use Rattle.std.specs.Prelude.{◌≡◌, IfOk, IfErr, Ok, Err, string_bytes};
ghost use Rattle.omaha_json.specs.RequestWriting.{IsAppid};
ghost use Rattle.update_client.specs.Lines.{done_line};
ghost use Rattle.omaha_commands.specs.Walking.{WalksOn, client_of};
ghost use Rattle.streams.specs.Streams.{Known};

use failures::Failure;
use omaha_arguments::Walk;
use profiles::print;
use std::alloc::{AllocError, Global};
use streams::WriteWhole;
use update_client::{Client, Connector, DoneLine, Walk as Walked};
use values::Text;

// The client of a walk.
fn client_of(alloc: Global, asked: &Walk) -> Result<Client, AllocError>
    requires { IsAppid asked.now.app }
    ensures { IfOk result (λ client. client ≡ client_of asked.now) }
{
    let prefix = asked.prefix.clone()?;
    let client = Client::new(
        asked.app.clone()?,
        asked.version.clone()?,
        asked.fp.clone()?,
        asked.cohort.clone()?,
        Text::copy_of(alloc, "")?,
        asked.rollback,
        asked.session.clone()?,
    );
    Ok(client.with_prefix(prefix))
}

// The line after a walk.
fn last_line(alloc: Global, walk: Walked) -> Result<String, AllocError>
    ensures { IfOk result (λ line. string_bytes line ≡ done_line walk) }
{
    let line = DoneLine { walk };
    format!(in alloc; "{line}")
}

// rule: Walk of the program
/// Walks along a server's offers, and prints a line for each step and one at the end.
///
/// Fails with the fault of the walk, or with the writer; the lines of the steps before stay.
pub fn walk_on<R: Connector, W: WriteWhole>(
    alloc: Global,
    rt: &R,
    asked: &Walk,
    writer: &mut W,
) -> Result<(), Failure>
    requires { IsAppid asked.now.app }
    ensures { (input : Known) → WalksOn (R.replies rt.now) asked.now
        (record { input = input; output = W.output writer.old })
        (record { input = input; output = W.output writer.new }) result }
{
    let mut client = client_of(alloc, asked)?;
    let walk = rt.walk_app_at(alloc, asked.to.as_str(), asked.timeout, &mut client, writer)?;
    let line = last_line(alloc, walk)?;
    print(line.as_bytes(), writer)
}
