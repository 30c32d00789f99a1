// What the jobs of a server came to.

ghost use Rattle.std.specs.Prelude.{◌≡◌, ◌⊎◌, ◌∷◌, ◌++◌, [], All, Err, IfErr, IfOk, IfSome, IsTrue, Ok, map, option_map, option_to_list, true};
ghost use Rattle.catalogue.specs.Histories.{History};
ghost use Rattle.server_ports.specs.Logging.{log_at, those_of};
ghost use Rattle.publisher.specs.Sights.{Allows};
ghost use Rattle.server_ports.specs.Passages.{HasAcceptedAll, HaveAcceptedAll, passage_of, passages_of};
ghost use Rattle.omaha_server.specs.Runs.{HaveRun, IsPublished, run_failure};
ghost use Rattle.server_ports.specs.declared.error.ServerError.TheVariants.{Memory, RoomLeft, Thread, Unpublished, EndedEarly};

use crate::clients::Visited;
use crate::operating::Operated;
use access_logs::EndedSender;
use http_ports::Port;
use mirror_ledger::{BudgetJob, Ran, RunError, TillJob};
use publisher::{Receipt, may_enter};
use server_ports::{Served, ServedPort, ServedPorts, ServerError};
use std::alloc::{AllocError, Global};
use streams::Trace;

/// What jobs that all began came to.
pub(crate) struct Ended<E, F> {
    /// What each worker's job came to, in order.
    pub(crate) clients: Vec<E>,
    /// What the own job came to.
    pub(crate) own: F,
    /// Each mirror's total in bytes.
    pub(crate) totals: Vec<u64>,
}

// Written out, so that no caller proves again how each part is dropped.
impl<E: Drop, F: Drop> Drop for Ended<E, F> {
    fn drop(self) {
        let Ended {
            clients: _,
            own: _,
            totals: _,
        } = self;
    }
}

impl<E, F> Ended<E, F> {
    // Gives all three.
    fn into_parts(self) -> (Vec<E>, F, Vec<u64>)
        ensures clients { result.0 ≡ self.clients }
        ensures own { result.1 ≡ self.own }
        ensures totals { result.2 ≡ self.totals }
    {
        let Ended {
            clients,
            own,
            totals,
        } = self;
        (clients, own, totals)
    }
}

// What each job came to, if all began.
fn all_ends<E: Drop, J: Drop>(alloc: Global, ends: Vec<Result<E, J>>) -> Result<Vec<E>, ServerError>
    ensures ok { IfOk result (λ all. ends.items ≡ map Ok all.items) }
    ensures err { IfErr result (λ error. (error ≡ Thread) ⊎ (error ≡ Memory)) }
{
    let mut all = Vec::new(alloc);
    for result in ends {
        let Ok(end) = result else {
            return Err(ServerError::Thread);
        };
        let Ok(()) = all.push(end) else {
            return Err(ServerError::Memory);
        };
    }
    Ok(all)
}

// rule: Rejected asks
/// What jobs came to that all began, as the own job did.
pub(crate) fn ends_of<J: TillJob + Drop, O: BudgetJob>(
    alloc: Global,
    ran: Result<Ran<J, O>, RunError>,
) -> Result<Ended<J::End, O::End>, ServerError>
    ensures ok { IfOk result (HaveRun ran) }
    ensures failed { IfErr ran (λ error. result ≡ Err (run_failure error)) }
    ensures err { IfErr result (λ error. (error ≡ Thread) ⊎ (error ≡ RoomLeft) ⊎ (error ≡ Memory)) }
{
    let Ran {
        ends,
        own,
        totals,
        ..
    } = match ran {
        Ok(ran) => ran,
        Err(RunError::RoomLeft) => return Err(ServerError::RoomLeft),
        Err(RunError::Memory) => return Err(ServerError::Memory),
    };
    let Some(own) = own else {
        return Err(ServerError::Thread);
    };
    let clients = all_ends(alloc, ends)?;
    Ok(Ended {
        clients,
        own,
        totals,
    })
}

/// The ports of a server that was served, and the mirrors' totals.
pub(crate) struct Run<P> {
    /// The ports.
    pub(crate) ports: ServedPorts<P>,
    /// Each mirror's total in bytes.
    pub(crate) totals: Vec<u64>,
}

// Written out, so that no caller proves again how each part is dropped.
impl<P: Drop> Drop for Run<P> {
    fn drop(self) {
        let Run {
            ports: _,
            totals: _,
        } = self;
    }
}

impl<P> Run<P> {
    /// Gives both.
    pub(crate) fn into_parts(self) -> (ServedPorts<P>, Vec<u64>)
        ensures ports { result.0 ≡ self.ports }
        ensures totals { result.1 ≡ self.totals }
    {
        let Run { ports, totals } = self;
        (ports, totals)
    }
}

// Ports and their ends of the log, in the same order.
struct Kept<P> {
    ports: Vec<ServedPort<P>>,
    log: Vec<EndedSender>,
}

// Written out, so that no caller proves again how each part is dropped.
impl<P: Drop> Drop for Kept<P> {
    fn drop(self) {
        let Kept { ports: _, log: _ } = self;
    }
}

impl<P> Kept<P> {
    // Gives both.
    fn into_parts(self) -> (Vec<ServedPort<P>>, Vec<EndedSender>)
        ensures ports { result.0 ≡ self.ports }
        ensures log { result.1 ≡ self.log }
    {
        let Kept { ports, log } = self;
        (ports, log)
    }
}

// Keeps one more port.
fn keep<P: Drop>(kept: &mut Kept<P>, served: Served<P>) -> Result<(), AllocError>
    ensures port { IfOk result (λ _. kept.new.ports.items ≡ kept.old.ports.items ++ served.port ∷ []) }
    ensures log { IfOk result (λ _. kept.new.log.items ≡ kept.old.log.items ++ option_to_list served.log) }
{
    let (port, log) = served.into_parts();
    kept.ports.push(port)?;
    if let Some(ended) = log {
        kept.log.push(ended)?;
    }
    Ok(())
}

// The ports of workers, if each one's view may enter what is published at the end.
fn published_ports<P: Drop>(
    alloc: Global,
    clients: Vec<Visited<P>>,
    left: &Receipt,
) -> Result<Kept<P>, ServerError>
    ensures ports { IfOk result (λ kept. kept.ports.items ≡ map (λ visited. visited.served.port) clients.items) }
    ensures log { IfOk result (λ kept. kept.log.items ≡ those_of (map (λ visited. visited.served.log) clients.items)) }
    ensures allowed { IfOk result (λ _. All (λ visited. Allows visited.view left.now) clients.items) }
    ensures err { IfErr result (λ error. (error ≡ Unpublished) ⊎ (error ≡ Memory)) }
{
    let mut kept = Kept {
        ports: Vec::new(alloc),
        log: Vec::new(alloc),
    };
    for visited in clients {
        let (served, view) = visited.into_parts();
        if !may_enter(view, left) {
            return Err(ServerError::Unpublished);
        }
        let Ok(()) = keep(&mut kept, served) else {
            return Err(ServerError::Memory);
        };
    }
    Ok(kept)
}

// Whether the ports of workers accepted all their connections.
fn have_clients_accepted<P: Port>(ports: &[ServedPort<P>]) -> bool
    ensures { IsTrue result → All HasAcceptedAll (map (passage_of P.terms P.slots P.accepted) ports.now) }
{
    for index in 0..ports.len() {
        if !ports[index].port.has_accepted_all() {
            return false;
        }
    }
    true
}

// Whether the operator's port did, if there is one.
fn has_operator_accepted<P: Port>(port: &Option<ServedPort<P>>) -> bool
    ensures { IsTrue result → IfSome (option_map (passage_of P.terms P.slots P.accepted) port.now) HasAcceptedAll }
{
    match port {
        Some(served) => served.port.has_accepted_all(),
        None => true,
    }
}

// Whether all did.
fn have_accepted_all<P: Port>(ports: &ServedPorts<P>) -> bool
    ensures { IsTrue result → HaveAcceptedAll (passages_of P.terms P.slots P.accepted ports.now) }
{
    have_clients_accepted(ports.clients.as_slice()) && has_operator_accepted(&ports.operator)
}

// The senders with the operator's, if it had one.
fn with_operators(
    senders: Vec<EndedSender>,
    ended: Option<EndedSender>,
) -> Result<Vec<EndedSender>, AllocError>
    ensures { IfOk result (λ all. all.items ≡ senders.items ++ option_to_list ended) }
{
    let mut senders = senders;
    if let Some(ended) = ended {
        senders.push(ended)?;
    }
    Ok(senders)
}

// What was sent by these.
fn log_of(senders: &[EndedSender]) -> Trace<EndedSender>
    ensures { result ≡ senders.now }
{
    let mut log = Trace::new();
    for sender in senders {
        log.push(sender);
    }
    log
}

// The operator's port and the end of its sender, if there are any.
fn parts_of<P: Drop>(operator: Option<Served<P>>) -> (Option<ServedPort<P>>, Option<EndedSender>)
    ensures port { result.0 ≡ option_map (λ served. served.port) operator }
    ensures log { result.1 ≡ log_at operator }
{
    match operator {
        Some(served) => {
            let (port, log) = served.into_parts();
            (Some(port), log)
        }
        None => (None, None),
    }
}

// The ports of workers and of the operator, with what was sent to the log, and its senders, if each worker's view may enter
// what is published at the end.
fn all_ports<P: Drop>(
    alloc: Global,
    clients: Vec<Visited<P>>,
    served: Option<Served<P>>,
    left: &Receipt,
) -> Result<(ServedPorts<P>, Vec<EndedSender>), ServerError>
    ensures clients { IfOk result (λ made. made.0.clients.items ≡ map (λ visited. visited.served.port) clients.items) }
    ensures operator { IfOk result (λ made. made.0.operator ≡ option_map (λ served. served.port) served) }
    ensures log { IfOk result (λ made. made.0.log
        ≡ those_of (map (λ visited. visited.served.log) clients.items) ++ option_to_list (log_at served)) }
    ensures senders { IfOk result (λ made. made.1.items ≡ made.0.log) }
    ensures allowed { IfOk result (λ _. All (λ visited. Allows visited.view left.now) clients.items) }
    ensures err { IfErr result (λ error. (error ≡ Unpublished) ⊎ (error ≡ Memory)) }
{
    let (clients, log) = published_ports(alloc, clients, left)?.into_parts();
    let (operator, own) = parts_of(served);
    let Ok(senders) = with_operators(log, own) else {
        return Err(ServerError::Memory);
    };
    let ports = ServedPorts {
        clients,
        operator,
        log: log_of(&senders),
    };
    Ok((ports, senders))
}

// The same, if there is a receipt of what is published, and each port accepted all its connections, or the server was asked
// to end.
fn ended_ports<P: Port + Drop>(
    alloc: Global,
    clients: Vec<Visited<P>>,
    served: Option<Served<P>>,
    left: &Result<Receipt, AllocError>,
    ending: bool,
) -> Result<(ServedPorts<P>, Vec<EndedSender>), ServerError>
    ensures clients { IfOk result (λ made. made.0.clients.items ≡ map (λ visited. visited.served.port) clients.items) }
    ensures operator { IfOk result (λ made. made.0.operator ≡ option_map (λ served. served.port) served) }
    ensures log { IfOk result (λ made. made.0.log
        ≡ those_of (map (λ visited. visited.served.log) clients.items) ++ option_to_list (log_at served)) }
    ensures senders { IfOk result (λ made. made.1.items ≡ made.0.log) }
    ensures allowed { IfOk result (λ _. (history : History) × (left.now ≡ Ok history)
        × All (λ visited. Allows visited.view history) clients.items) }
    ensures whole { IfOk result (λ made. (ending ≡ true) ⊎ HaveAcceptedAll (passages_of P.terms P.slots P.accepted made.0)) }
    ensures err { IfErr result (λ error. (error ≡ Unpublished) ⊎ (error ≡ EndedEarly) ⊎ (error ≡ Memory)) }
{
    let Ok(left) = left else {
        return Err(ServerError::Memory);
    };
    let (ports, senders) = all_ports(alloc, clients, served, left)?;
    if !ending && !have_accepted_all(&ports) {
        return Err(ServerError::EndedEarly);
    }
    Ok((ports, senders))
}

// rule: Run of a service
/// The ports and the totals of jobs that came to their ends, what was sent to the log, and its senders, if each worker's view
/// may enter what the operator left, and each port accepted all its connections, or the server was asked to end.
pub(crate) fn published_run<P: Port + Drop>(
    alloc: Global,
    ended: Ended<Visited<P>, Operated<P>>,
) -> Result<(Run<P>, Vec<EndedSender>), ServerError>
    ensures ok { IfOk result (λ made. IsPublished P.terms P.slots P.accepted ended made.0) }
    ensures senders { IfOk result (λ made. made.1.items ≡ made.0.ports.log) }
    ensures err { IfErr result (λ error. (error ≡ Unpublished) ⊎ (error ≡ EndedEarly) ⊎ (error ≡ Memory)) }
{
    let (clients, own, totals) = ended.into_parts();
    let (served, left, ending) = own.into_parts();
    match ended_ports(alloc, clients, served, &left, ending) {
        Ok((ports, senders)) => Ok((Run { ports, totals }, senders)),
        Err(error) => Err(error),
    }
}
