// The connections of clients, of which each worker serves its port's.

ghost use Rattle.std.specs.Prelude.{◌≡◌, ◌<◌, ◌∷◌, ◌++◌, [], All, IfOk, if◌then◌else◌, length, map};
ghost use Rattle.std.specs.Option.{is_some};
ghost use Rattle.catalogue.specs.Histories.{History};
ghost use Rattle.publisher.specs.Sights.{fresh};
ghost use Rattle.omaha_server.specs.Jobs.{IsClients};
ghost use Rattle.server_ports.specs.Logging.{those_of};
ghost use Rattle.systems.specs.NewPorts.{IsNew};

use http_ports::Port;
use mirror_ledger::{Till, TillJob};
use publisher::View;
use server_ports::{NewPort, NewSender, Served, Setup, serve_new};
use service_desks::Worker;
use std::alloc::{AllocError, Global};
use std::sync::Wait;
use std::time::Clock;
use systems::System;

/// What a worker came to.
pub(crate) struct Visited<P> {
    /// Its port, and its end of the log.
    pub(crate) served: Served<P>,
    /// Its view, as it is then.
    pub(crate) view: View,
}

// Written out, so that no caller proves again how each part is dropped.
impl<P: Drop> Drop for Visited<P> {
    fn drop(self) {
        let Visited { served: _, view: _ } = self;
    }
}

impl<P> Visited<P> {
    /// Gives both.
    pub(crate) fn into_parts(self) -> (Served<P>, View)
        ensures served { result.0 ≡ self.served }
        ensures view { result.1 ≡ self.view }
    {
        let Visited { served, view } = self;
        (served, view)
    }
}

/// The connections that a worker serves, as the job of its thread.
pub(crate) struct Clients<'s, 'a, S, R, P: Port> {
    /// What they are served with.
    pub(crate) setup: &'s Setup<'a, S, R>,
    /// Where they come from.
    pub(crate) port: NewPort<P>,
    /// The worker's view of the published editions.
    pub(crate) view: View,
    /// The worker's end of the log, if there is one.
    pub(crate) lines: Option<NewSender>,
    /// The worker's number, from 0.
    pub(crate) number: usize,
}

// Written out, so that no caller proves again how each part is dropped.
impl<S, R, P: Port + Drop> Drop for Clients<'_, '_, S, R, P> {
    fn drop(self) {
        let Clients {
            setup: _,
            port: _,
            view: _,
            lines: _,
            number: _,
        } = self;
    }
}

// rule: Sessions of a server
impl<S: System<P>, R: Clock + Wait + AllocGlobal, P: Port + Send + Drop> TillJob
    for Clients<'_, '_, S, R, P> {
    ghost use Rattle.server_ports.specs.Passages.{passage_of};
    ghost use Rattle.server_ports.specs.Logging.{HasSent};
    ghost use Rattle.omaha_server.specs.Serving.{IsWorkersPort};

    type End = Visited<P>;

    ghost comes_to = { λ single mirrors clients asks end.
        IsWorkersPort (S.edges clients.setup.now.system.now) clients.setup.now.place.now (P.terms clients.port) single
        mirrors clients.view (record { sight = end.view; asks = asks })
        (passage_of P.terms P.slots P.accepted end.served.port)
        × HasSent (P.slots end.served.port.port) clients.lines end.served.log };

    fn work<T: Till + Drop>(self, till: T) -> (T, Visited<P>) {
        let Clients {
            setup,
            port,
            view,
            lines,
            number,
        } = self;
        let tables = setup.place.pinned_tables as usize;
        let tally = setup.traffic.tally(number);
        let mut desk = Worker::with_counter(setup.rt, view, till, tables, tally);
        let served = serve_new(setup, port, &mut desk, lines, Some(tally));
        setup.ending.leave::<S, P>(setup.system);
        let (left, till) = desk.into_parts();
        (till, Visited { served, view: left })
    }
}

// The connections of a worker.
fn clients_of<'s, 'a, S, R, P: Port + Drop>(
    alloc: Global,
    setup: &'s Setup<'a, S, R>,
    port: P,
    view: View,
    lines: Option<NewSender>,
    number: usize,
) -> Result<Clients<'s, 'a, S, R, P>, AllocError>
    requires { IsNew P.terms P.slots P.accepted P.is_over port }
    ensures clients { IfOk result (IsClients setup.now view) }
    ensures port { IfOk result (λ clients. clients.port ≡ port) }
    ensures lines { IfOk result (λ clients. clients.lines ≡ lines) }
{
    let port = NewPort::of(alloc, port)?;
    Ok(Clients {
        setup,
        port,
        view,
        lines,
        number,
    })
}

// Adds the connections of one more worker.
fn add_clients<'s, 'a, S, R, P: Port + Drop>(
    alloc: Global,
    setup: &'s Setup<'a, S, R>,
    jobs: &mut Vec<Clients<'s, 'a, S, R, P>>,
    port: P,
    view: View,
    lines: Option<NewSender>,
) -> Result<(), AllocError>
    requires { IsNew P.terms P.slots P.accepted P.is_over port }
    ensures ports { IfOk result (λ _. map (λ job. job.port) jobs.new.items ≡ map (λ job. job.port) jobs.old.items ++ port ∷ []) }
    ensures lines { IfOk result (λ _. map (λ job. job.lines) jobs.new.items ≡ map (λ job. job.lines) jobs.old.items ++ lines ∷ []) }
    ensures clients { IfOk result (λ _. All (IsClients setup.now view) jobs.old.items → All (IsClients setup.now view) jobs.new.items) }
{
    let clients = clients_of(alloc, setup, port, view, lines, jobs.len())?;
    jobs.push(clients)?;
    Ok(())
}

/// The connections of each worker, which has one of the ports, one of the views, and one of the log's senders, if there is a
/// log.
pub(crate) fn all_clients<'s, 'a, S, R, P: Port + Drop>(
    alloc: Global,
    setup: &'s Setup<'a, S, R>,
    ports: Vec<P>,
    views: Vec<View>,
    senders: Vec<NewSender>,
) -> Result<Vec<Clients<'s, 'a, S, R, P>>, AllocError>
    requires many { length views.items ≡ length ports.items }
    requires lined { length senders.items ≡ (if is_some setup.now.place.now.log then length ports.items else 0) }
    requires new { All (IsNew P.terms P.slots P.accepted P.is_over) ports.items }
    ensures ports { IfOk result (λ jobs. map (λ job. job.port) jobs.items ≡ ports.items) }
    ensures lines { IfOk result (λ jobs. those_of (map (λ job. job.lines) jobs.items) ≡ senders.items) }
    ensures lined { IfOk result (λ jobs. All (λ line. is_some line ≡ is_some setup.now.place.now.log) (map (λ job. job.lines) jobs.items)) }
    ensures jobs { IfOk result (λ jobs. (history : History) → All (λ sight. sight ≡ fresh history) views.items
        → All (IsClients setup.now (fresh history)) jobs.items) }
{
    let mut views = views;
    let mut senders = senders.into_iter();
    let mut jobs = Vec::new(alloc);
    for port in ports {
        let Some(view) = views.pop() else {
            unreachable!()
        };
        let line = senders.next();
        add_clients(alloc, setup, &mut jobs, port, view, line)?;
    }
    Ok(jobs)
}
