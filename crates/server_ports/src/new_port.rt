// A port before it is served.

ghost use Rattle.std.specs.Prelude.{◌≡◌, IfOk};
ghost use Rattle.systems.specs.NewPorts.{IsNew};

use crate::watches::Sight;
use access_logs::Places;
use http_ports::Port;
use http_sessions::Connections;
use std::alloc::{AllocError, Global};
use std::marker::Model;

/// A new port, and room for its connections and for what is logged of them; contracts see the port.
pub struct NewPort<P: Port> {
    port: P,
    room: Connections<Sight>,
    places: Places,
}

// Written out, so that no caller proves again how each part is dropped.
impl<P: Port + Drop> Drop for NewPort<P> {
    fn drop(self) {
        let NewPort {
            port: _,
            room: _,
            places: _,
        } = self;
    }
}

impl<P: Port> Model for NewPort<P> {
    ghost use Rattle.std.specs.Prelude.{◌≡◌};
    ghost use Rattle.systems.specs.NewPorts.{IsNew};

    ghost Value = { P };

    ghost view = { λ new. new.port };

    ghost invariant = { λ new. IsNew P.terms P.slots P.accepted P.is_over new.port
        × (new.room ≡ (P.terms new.port).capacity) × (new.places ≡ (P.terms new.port).capacity) };
}

impl<P: Port + Drop> NewPort<P> {
    /// Makes room for the connections of a new port, and for what is logged of them. Fails if memory runs out.
    pub fn of(alloc: Global, port: P) -> Result<NewPort<P>, AllocError>
        requires { IsNew P.terms P.slots P.accepted P.is_over port }
        ensures { IfOk result (λ made. made ≡ port) }
    {
        let capacity = port.terms().capacity;
        let room = Connections::new(alloc, capacity)?;
        let places = Places::new(alloc, capacity)?;
        Ok(NewPort { port, room, places })
    }

    /// Gives the port, and the room for both.
    pub(crate) fn into_parts(self) -> (P, Connections<Sight>, Places)
        ensures port { result.0 ≡ self }
        ensures new { IsNew P.terms P.slots P.accepted P.is_over result.0 }
        ensures room { result.1 ≡ (P.terms self).capacity }
        ensures places { result.2 ≡ (P.terms self).capacity }
    {
        let NewPort { port, room, places } = self;
        (port, room, places)
    }
}
