// The command `stop`.

ghost use Rattle.std.specs.Prelude.{◌≡◌};
ghost use Rattle.omaha_commands.specs.Stopping.{Awaits, EndsAfter, IsStopping, Stops};

use crate::operating::call_for_line;
use failures::Failure;
use omaha_arguments::Stop;
use std::alloc::Global;
use std::sync::Wait;
use streams::WriteWhole;
use update_client::{Connector, Patience};
use values::Text;

// The failure for a server that hasn't ended in time.
fn still_stopping(to: &Text) -> Failure
    ensures { IsStopping to.now result }
{
    match to.clone() {
        Ok(to) => Failure::Stopping(to),
        Err(_) => Failure::Memory,
    }
}

// rule: Wait for a server's end
// Waits until nobody listens at an operator's address, for as long as the wait has.
fn await_end<R: Connector + Wait>(rt: &R, to: &Text, patience: Patience) -> Result<(), Failure>
    ensures { Awaits (R.endings rt.now) patience.seconds to.now result }
{
    for _ in rt.forever() {
        if rt.is_gone(to.as_str()) {
            return Ok(());
        }
        if !rt.pause(patience) {
            return Err(still_stopping(to));
        }
    }
    unreachable!()
}

// Waits for the end of a server, if the call that asked for it succeeded.
fn await_after<R: Connector + Wait>(
    rt: &R,
    called: Result<(), Failure>,
    asked: &Stop,
    patience: Patience,
) -> Result<(), Failure>
    requires { patience.seconds ≡ asked.now.timeout }
    ensures { EndsAfter (R.endings rt.now) asked.now called result }
{
    match called {
        Ok(()) => await_end(rt, &asked.to, patience),
        Err(failure) => Err(failure),
    }
}

// rule: Stop by a command
/// Asks the server of an operator's listener to end, prints its reply, and waits until nobody listens there.
///
/// Fails as `publish_on` does without a file, and nothing is waited for then; and with `Stopping` if the server hasn't ended
/// within the command's seconds, which count from its begin.
pub fn stop_on<R: Connector + Wait, W: WriteWhole>(
    rt: &R,
    alloc: Global,
    asked: &Stop,
    shown: bool,
    writer: &mut W,
) -> Result<(), Failure>
    ensures { Stops (R.operated rt.now) (R.endings rt.now) shown asked.now (W.output writer.old) (W.output writer.new) result }
{
    let patience = rt.begin_wait(asked.timeout);
    let called = call_for_line(rt, alloc, shown, &asked.to, asked.timeout, b"stop", writer);
    await_after(rt, called, asked, patience)
}
