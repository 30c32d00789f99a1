// What a server says of itself when it starts.

ghost use Rattle.std.specs.Prelude.{◌≡◌, ◌+◌, ◌-◌, ◌^◌, ◌≤◌, length};

use http_ports::Port;
use publisher::Press;
use server_ports::{Ports, Setup, note_serving};
use std::sync::Wait;
use systems::System;

// The number of the edition that is published, by that of the first record.
fn edition_of(press: &Press, first: u64) -> u64
    requires { (1 ≤ first) × (first ≤ 2 ^ 53) }
    ensures { result ≡ first - 1 + length press.now }
{
    first - 1 + press.edition().number()
}

/// Says what is served, where and by what, and which packages aren't there, if the place has a name.
pub(crate) fn note_start<P: Port, S: System<P>, R: Wait + AllocGlobal>(
    setup: &Setup<'_, S, R>,
    ports: &Ports<P>,
    press: &Press,
    first: u64,
)
    requires { (1 ≤ first) × (first ≤ 2 ^ 53) }
{
    let edition = edition_of(press, first);
    note_serving(setup, ports, edition, press.edition().catalogue().apps());
}
