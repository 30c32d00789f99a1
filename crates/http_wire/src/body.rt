ghost use Rattle.std.specs.Prelude.{◌≡◌, ◌+◌, length, is_ok, min, take, drop, ◌++◌, if◌then◌else◌};
ghost use Rattle.http_wire.specs.Bodies.{BodyFound};

use crate::device::Source;
use crate::window::Window;
use values::Failed;

// Moves the bytes that wait to the front of the body, as many as fit.
fn take_waiting(window: &mut Window, body: &mut [u8]) -> usize
    ensures count { result ≡ min (length window.old) (length body.old) }
    ensures taken { take result body.new ≡ take result window.old }
    ensures rest { window.new ≡ drop result window.old }
{
    let count = window.bytes().len().min(body.len());
    body[..count].copy_from_slice(&window.bytes()[..count]);
    window.discard(count);
    count
}

// rule: Body of a request
/// Reads until the body is full, first from the window.
///
/// Returns `false` if the input ended before. Then, and after a failure, nothing waits.
pub fn read_body<S: Source>(
    source: &mut S,
    window: &mut Window,
    body: &mut [u8],
) -> Result<bool, Failed>
    ensures found { BodyFound (S.remaining source.old) (S.remaining source.new) window.old window.new body.new result }
    ensures failed { S.failures source.new ≡ S.failures source.old + (if is_ok result then 0 else 1) }
{
    let mut filled = take_waiting(window, body);
    while filled < body.len() {
        match source.read(&mut body[filled..]) {
            Ok(0) => return Ok(false),
            Ok(count) => filled += count,
            Err(error) => return Err(error),
        }
    }
    Ok(true)
}
