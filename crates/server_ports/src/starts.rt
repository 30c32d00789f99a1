// What a server says of itself when it starts.

use crate::lacks::note_apps;
use crate::notes::{Serving, note};
use crate::opening::Ports;
use crate::setup::Setup;
use catalogue::App;
use http_ports::Port;
use std::alloc::AllocError;
use std::sync::Wait;
use systems::System;
use values::Text;

// How many connections ports may hold.
fn count_connections<P: Port>(ports: &[P]) -> u64 {
    let mut count = 0u64;
    for port in ports {
        count = count.saturating_add(port.terms().capacity as u64);
    }
    count
}

// The address that the clients' ports were given.
fn clients_address<P: Port, S: System<P>, R: AllocGlobal>(
    setup: &Setup<'_, S, R>,
    ports: &Ports<P>,
) -> Result<Text, AllocError> {
    let (alloc, address) = (setup.rt.alloc(), setup.place.address.as_str());
    match ports.clients.first() {
        Some(port) => Ok(Text::new(setup.system.address_of(alloc, port, address)?)),
        None => Text::copy_of(alloc, address),
    }
}

/// Notes the address that the clients' ports were given: that of the first port, and that of the place if there is none.
/// Fails if memory runs out.
pub fn bind_traffic<P: Port, S: System<P>, R: AllocGlobal>(
    setup: &Setup<'_, S, R>,
    ports: &Ports<P>,
) -> Result<(), AllocError> {
    let address = clients_address(setup, ports)?;
    setup.traffic.bind(address);
    Ok(())
}

// The address that the operator's port was given, if there is one.
fn operator_address<P: Port, S: System<P>, R: AllocGlobal>(
    setup: &Setup<'_, S, R>,
    ports: &Ports<P>,
) -> Result<Option<Text>, AllocError> {
    let (Some(port), Some(address)) = (&ports.operator, &setup.place.operator) else {
        return Ok(None);
    };
    let given = setup
        .system
        .address_of(setup.rt.alloc(), port, address.as_str())?;
    Ok(Some(Text::new(given)))
}

// The line of what is served.
fn serving_line<P: Port, S: System<P>, R: AllocGlobal>(
    setup: &Setup<'_, S, R>,
    ports: &Ports<P>,
    name: &str,
    edition: u64,
) -> Result<String, AllocError> {
    let address = clients_address(setup, ports)?;
    let operator = operator_address(setup, ports)?;
    let serving = Serving {
        name,
        edition,
        address: &address,
        operator: &operator,
        workers: setup.place.workers,
        connections: count_connections(ports.clients.as_slice()),
    };
    format!(in setup.rt.alloc(); "{serving}")
}

/// Says what is served, where and by what, and which packages of these apps aren't there with their sizes, if the place has
/// a name: the lines are sent as far as there is memory for them.
pub fn note_serving<P: Port, S: System<P>, R: Wait + AllocGlobal>(
    setup: &Setup<'_, S, R>,
    ports: &Ports<P>,
    edition: u64,
    apps: &[App],
) {
    let Some(name) = &setup.place.named else {
        return;
    };
    if let Ok(said) = serving_line(setup, ports, name.as_str(), edition) {
        note(setup, said.as_str());
    }
    note_apps::<S, R, P>(setup, apps);
}
