// How a server is asked to end.

use http_ports::Port;
use std::sync::atomic::{AtomicBool, AtomicUsize, Ordering};
use systems::System;

/// The number of the clients' listener.
pub(crate) const CLIENTS: u64 = 0;

/// The number of the operator's.
pub(crate) const OPERATOR: u64 = 1;

/// Whether a server was asked to end, and how many workers still serve.
///
/// Once it was asked, the workers' ports end; once no worker serves any more, the operator's does, which can be asked
/// how the server is until then.
#[derive(Drop)]
pub struct Ending {
    asked: AtomicBool,
    serving: AtomicUsize,
}

impl Ending {
    /// Begins with so many workers that serve, and nobody has asked the server to end.
    pub fn new(workers: usize) -> Ending {
        Ending {
            asked: AtomicBool::new(false),
            serving: AtomicUsize::new(workers),
        }
    }

    // Ends the operator's port, if the server was asked to end and no worker serves any more.
    fn end_operator<S: System<P>, P: Port>(&self, system: &S) {
        if self.asked.load(Ordering::SeqCst) && self.serving.load(Ordering::SeqCst) == 0 {
            system.end_ports(OPERATOR);
        }
    }

    /// Asks the server to end: the workers' ports end now, and the operator's once no worker serves any more.
    pub fn ask<S: System<P>, P: Port>(&self, system: &S) {
        self.asked.store(true, Ordering::SeqCst);
        system.end_ports(CLIENTS);
        self.end_operator::<S, P>(system);
    }

    /// Notes that a worker has served its port. If it was the last one, and the server was asked to end, the operator's port
    /// ends.
    pub fn leave<S: System<P>, P: Port>(&self, system: &S) {
        self.serving.fetch_sub(1, Ordering::SeqCst);
        self.end_operator::<S, P>(system);
    }
}
