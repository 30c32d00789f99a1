// The jobs of a server's threads.

ghost use Rattle.std.specs.Prelude.{◌≡◌, ◌++◌, ◌&&◌, All, IfOk, IfSome, if◌then◌else◌, length, map, option_map, option_to_list};
ghost use Rattle.std.specs.Option.{is_some};
ghost use Rattle.access_logs.specs.Pages.{IsUncut};
ghost use Rattle.publisher.specs.Sights.{fresh};
ghost use Rattle.omaha_server.specs.Jobs.{IsManned};
ghost use Rattle.server_ports.specs.Logging.{AreOpened, Both, FitOutlets, senders_of};
ghost use Rattle.systems.specs.NewPorts.{IsNew};
ghost use Rattle.omaha_server.specs.OperatorPorts.{has_operator, terms_left};
ghost use Rattle.server_ports.specs.Places.{ArePorts};

use crate::clients::{Clients, all_clients};
use crate::operating::{Operating, OperatorPort};
use crate::starts::note_start;
use http_ports::Port;
use kept_records::Records;
use publisher::{Press, View};
use server_ports::{NewPort, Outlets, Ports, Senders, Setup, Writings, bind_traffic, open_outlets};
use std::alloc::{AllocError, Global};
use std::sync::Wait;
use std::thread::Threads;
use streams::WriteWhole;
use systems::System;

// The operator's port, with room for its connections, if there is one.
fn operator_port<P: Port + Drop>(
    alloc: Global,
    port: Option<P>,
) -> Result<OperatorPort<P>, AllocError>
    requires { IfSome port (IsNew P.terms P.slots P.accepted P.is_over) }
    ensures operates { IfOk result (λ made. has_operator made ≡ is_some port) }
    ensures terms { IfOk result (λ made. terms_left P.terms made ≡ option_map P.terms port) }
{
    match port {
        Some(port) => Ok(OperatorPort::New(NewPort::of(alloc, port)?)),
        None => Ok(OperatorPort::Missing),
    }
}

/// The jobs of a server's threads, and what writes their lines. It is not `Drop`, since a press isn't.
pub(crate) struct Crew<'s, 'a, 'p, S, R: Threads + Wait + AllocGlobal, P: Port, F: WriteWhole, K> {
    /// A job for each worker.
    pub(crate) jobs: Vec<Clients<'s, 'a, S, R, P>>,
    /// The operator's job.
    pub(crate) own: Operating<'s, 'a, S, R, P, K>,
    /// What writes their lines.
    pub(crate) writings: Writings<'p, F>,
}

/// What an operator publishes by. It is not `Drop`, since a press isn't.
pub(crate) struct Publishing<K> {
    /// The press.
    pub(crate) press: Press,
    /// Where scripts and raises are kept.
    pub(crate) records: K,
}

impl<K: Drop> Publishing<K> {
    /// Gives the press alone.
    pub(crate) fn into_press(self) -> Press {
        let Publishing { press, records } = self;
        drop(records);
        press
    }
}

// Makes the jobs of a worker for each view and of the operator, of which each has its sender to the log, if there is one; or
// gives the press back, if memory runs out.
fn jobs_of<
    's,
    'a,
    P: Port + Drop,
    S: System<P>,
    R: Threads + Wait + AllocGlobal,
    K: Records + Drop,
>(
    setup: &'s Setup<'a, S, R>,
    ports: Ports<P>,
    publishing: Publishing<K>,
    views: Vec<View>,
    senders: Senders,
) -> Result<(Vec<Clients<'s, 'a, S, R, P>>, Operating<'s, 'a, S, R, P, K>), Press>
    requires ports { ArePorts (S.edges setup.now.system.now) P.terms P.slots P.accepted P.is_over setup.now.place.now ports }
    requires many { length views.items ≡ setup.now.place.now.workers }
    requires views { All (λ sight. sight ≡ fresh publishing.press) views.items }
    requires lined { length senders.clients.items ≡ (if is_some setup.now.place.now.log then setup.now.place.now.workers else 0) }
    requires operator { is_some senders.operator ≡ (is_some setup.now.place.now.log && is_some setup.now.place.now.operator) }
    ensures manned { IfOk result (λ made. IsManned (S.edges setup.now.system.now) P.terms setup.now made.0.items made.1) }
    ensures senders { IfOk result (λ made. senders_of (map (λ job. job.lines) made.0.items) made.1.lines
        ≡ senders.clients.items ++ option_to_list senders.operator) }
    ensures press { IfOk result (λ made. made.1.press ≡ publishing.press) }
    ensures records { IfOk result (λ made. made.1.records ≡ publishing.records) }
{
    let Publishing { press, records } = publishing;
    let alloc = setup.rt.alloc();
    let Senders {
        clients: senders,
        operator: lines,
    } = senders;
    let Ports { clients, operator } = ports;
    let Ok(jobs) = all_clients(alloc, setup, clients, views, senders) else {
        return Err(press);
    };
    let Ok(port) = operator_port(alloc, operator) else {
        return Err(press);
    };
    let own = Operating {
        setup,
        port,
        press,
        records,
        lines,
    };
    Ok((jobs, own))
}

/// Makes the jobs of a worker for each view and of the operator, each of which has a sender to the log, if there is
/// one, and what writes their lines to what it takes of the outlets; or gives the press back, if memory runs out.
pub(crate) fn crew_of<
    's,
    'a,
    'p,
    P: Port + Drop,
    S: System<P>,
    R: Threads + Wait + AllocGlobal,
    F: WriteWhole + Send,
    K: Records + Drop,
>(
    setup: &'s Setup<'a, S, R>,
    ports: Ports<P>,
    publishing: Publishing<K>,
    views: Vec<View>,
    outlets: &mut Outlets<'p, F>,
) -> Result<Crew<'s, 'a, 'p, S, R, P, F, K>, Press>
    requires ports { ArePorts (S.edges setup.now.system.now) P.terms P.slots P.accepted P.is_over setup.now.place.now ports }
    requires many { length views.items ≡ setup.now.place.now.workers }
    requires views { All (λ sight. sight ≡ fresh publishing.press) views.items }
    requires fit { FitOutlets setup.now.place.now (is_some outlets.old.errors) (is_some outlets.old.file) }
    requires errors { IfSome outlets.old.errors IsUncut }
    requires file { IfSome outlets.old.file IsUncut }
    ensures manned { IfOk result (λ crew. IsManned (S.edges setup.now.system.now) P.terms setup.now crew.jobs.items crew.own) }
    ensures opened { IfOk result (λ crew. AreOpened (is_some setup.now.place.now.named)
        (senders_of (map (λ job. job.lines) crew.jobs.items) crew.own.lines)
        (option_map (λ writing. writing.opened.value.items) crew.writings.errors)
        (option_map (λ writing. writing.opened.value.items) crew.writings.file)) }
    ensures page { IfOk result (λ crew. Both (λ page writing. writing.page ≡ page) outlets.old.errors crew.writings.errors) }
    ensures filed { IfOk result (λ crew. is_some crew.writings.file ≡ is_some outlets.old.file) }
    ensures press { IfOk result (λ crew. crew.own.press ≡ publishing.press) }
    ensures records { IfOk result (λ crew. crew.own.records ≡ publishing.records) }
{
    if bind_traffic(setup, &ports).is_err() {
        return Err(publishing.into_press());
    }
    let Ok((senders, writings)) = open_outlets(setup, outlets) else {
        return Err(publishing.into_press());
    };
    note_start(setup, &ports, &publishing.press, publishing.records.first());
    match jobs_of(setup, ports, publishing, views, senders) {
        Ok((jobs, own)) => Ok(Crew {
            jobs,
            own,
            writings,
        }),
        Err(press) => {
            drop(writings);
            Err(press)
        }
    }
}
