// The jobs of a server, beside the threads of what writes their lines.

ghost use Rattle.std.specs.Prelude.{◌≡◌, ◌⊎◌, ◌-◌, All, IfErr, IfOk, IfSome, length, map, option_map};
ghost use Rattle.std.specs.List.{AllZip};
ghost use Rattle.std.specs.Option.{is_some};
ghost use Rattle.http_ports.specs.Speech.{one_if};
ghost use Rattle.access_logs.specs.Pages.{IsUncut};
ghost use Rattle.access_logs.specs.Queues.{HaveEnded};
ghost use Rattle.publisher.specs.Sights.{fresh};
ghost use Rattle.rtrb.specs.Ring.{SameProducer};
ghost use Rattle.omaha_server.specs.Jobs.{IsManned};
ghost use Rattle.server_ports.specs.Logging.{AreLogged, AreOpened, Both, FitOutlets, IsFilled, senders_of, unless};
ghost use Rattle.server_ports.specs.Passages.{passages_of};
ghost use Rattle.omaha_server.specs.Runs.{HasServed};
ghost use Rattle.server_ports.specs.Errors.{IsEarly, IsLater};
ghost use Rattle.server_ports.specs.Starts.{Stops};
ghost use Rattle.omaha_server.specs.Serving.{AreTotals, begun};
ghost use Rattle.server_ports.specs.declared.error.ServerError.TheVariants.{Memory, RoomLeft, Thread, Unpublished, EndedEarly};

use crate::clients::Clients;
use crate::crew::{Crew, Publishing, crew_of};
use crate::operating::Operating;
use crate::running::{Run, ends_of, published_run};
use access_logs::{EndedSender, Page, WriterThread};
use http_ports::Port;
use kept_records::Records;
use mirror_ledger::run_with_tills;
use publisher::View;
use server_ports::{
    Outlets, ServerError, Setup, Writings, by_page, finish_writing, open_place, start_writing,
};
use service_desks::Mirrors;
use std::fs::File;
use std::sync::Wait;
use std::thread;
use std::thread::{Scope, Threads};
use std::time::Clock;
use streams::WriteWhole;
use systems::System;
use worker_threads::Gate;

// Starts the threads of what writes the lines of a server, each if there is something for it.
fn start_both<'s, 'p, E, R: Wait + Sync, F: WriteWhole + Send>(
    scope: &Scope<'s, E>,
    rt: &'s R,
    writings: Writings<'p, F>,
) -> Result<
    (
        Option<WriterThread<'s, 'p, R, F>>,
        Option<WriterThread<'s, 'p, R, File>>,
    ),
    ServerError,
>
where
    'p: 's,
    ensures errors { IfOk result (λ threads. Both (λ writing thread. thread.began.value ≡ writing) writings.entry.errors threads.0) }
    ensures file { IfOk result (λ threads. Both (λ writing thread. thread.began.value ≡ writing) writings.entry.file threads.1) }
    ensures err { IfErr result (λ error. error ≡ Thread) }
{
    let Writings { errors, file } = writings;
    let errors = start_writing(scope, rt, errors)?;
    let file = start_writing(scope, rt, file)?;
    Ok((errors, file))
}

// Ends both threads, once the log's senders have ended, and gives the page of the standard error back with what they have
// sent, unless that went to the file.
fn finish_both<'p, R: Threads + Wait + AllocGlobal, F: WriteWhole + Send>(
    rt: &R,
    errors: Option<WriterThread<'_, 'p, R, F>>,
    file: Option<WriterThread<'_, 'p, R, File>>,
    ended: Vec<EndedSender>,
) -> Option<Page<'p, F>>
    requires here { IfSome errors (λ thread. HaveEnded thread.began.value.opened.value.items
        (unless (is_some file) ended.items)) }
    requires there { IfSome file (λ thread. HaveEnded thread.began.value.opened.value.items ended.items) }
    ensures written { Both (λ thread page. IsFilled F.output
        (length thread.began.value.opened.value.items - length (unless (is_some file.entry) ended.items))
        (map (λ sender. sender.sent) (unless (is_some file.entry) ended.items)) thread.began.value.page page)
        errors.entry result }
{
    let (here, filed) = by_page(rt.alloc(), file.is_some(), ended);
    // Nobody knows what the file has: the system opened it.
    let _ = finish_writing(rt, file, filed);
    finish_writing(rt, errors, here)
}

// Runs the jobs of the workers and of the operator, with a till for each worker, and gives the log's senders with the ports.
// The press still shows what the operator left when the workers' views are compared with it.
fn run_manned<
    P: Port + Send + Drop,
    S: System<P> + Sync,
    R: Clock + Threads + Wait + Sync + AllocGlobal,
    G: Gate + Sync,
    K: Records,
>(
    setup: &Setup<'_, S, R>,
    gate: &G,
    mirrors: Mirrors,
    jobs: Vec<Clients<'_, '_, S, R, P>>,
    own: &mut Operating<'_, '_, S, R, P, K>,
) -> Result<(Run<P>, Vec<EndedSender>), ServerError>
    requires manned { IsManned (S.edges setup.now.system.now) P.terms setup.now jobs.items own.old }
    ensures ok { IfOk result (λ made. AreTotals (S.edges setup.now.system.now) setup.now.place.now
        (record { edition = own.old.press; mirrors = mirrors })
        (begun own.old.press (K.first own.old.records) (K.kept own.old.records)).store
        (passages_of P.terms P.slots P.accepted made.0.ports) made.0.totals.items) }
    ensures replies { IfOk result (λ made. AreLogged (is_some setup.now.place.now.log)
        (passages_of P.terms P.slots P.accepted made.0.ports) (map (λ ended. ended.sent) made.0.ports.log)) }
    ensures same { IfOk result (λ made. AllZip (λ sender ended. SameProducer sender.end ended.end)
        (senders_of (map (λ job. job.lines) jobs.entry.items) own.old.lines) made.0.ports.log) }
    ensures senders { IfOk result (λ made. made.1.items ≡ made.0.ports.log) }
    ensures err { IfErr result (λ error. (error ≡ Thread) ⊎ (error ≡ RoomLeft) ⊎ (error ≡ Unpublished) ⊎ (error ≡ EndedEarly) ⊎ (error ≡ Memory)) }
{
    let rt = setup.rt;
    let ran = run_with_tills(rt, rt.alloc(), mirrors.into_vec(), gate, jobs, own);
    setup.notes.lock(rt).end();
    let ended = ends_of(rt.alloc(), ran)?;
    let (run, senders) = published_run(rt.alloc(), ended)?;
    Ok((run, senders))
}

// rule: Totals of a server
// rule: Log of a server
// rule: Standard error of a server
// Runs the jobs of the workers and of the operator, with a till for each worker, beside a thread for each page that
// lines are written to, and gives the page of the standard error back with what was sent to it.
fn run_within<
    's,
    'a,
    'p,
    E,
    P: Port + Send + Drop,
    S: System<P> + Sync,
    R: Clock + Threads + Wait + Sync + AllocGlobal,
    F: WriteWhole + Send,
    G: Gate + Sync,
    K: Records,
>(
    scope: &Scope<'s, E>,
    setup: &Setup<'a, S, R>,
    gate: &G,
    mirrors: Mirrors,
    jobs: Vec<Clients<'_, '_, S, R, P>>,
    own: &mut Operating<'_, '_, S, R, P, K>,
    writings: Writings<'p, F>,
) -> Result<(Run<P>, Option<Page<'p, F>>), ServerError>
where
    'a: 's,
    'p: 's,
    requires manned { IsManned (S.edges setup.now.system.now) P.terms setup.now jobs.items own.old }
    requires opened { AreOpened (is_some setup.now.place.now.named) (senders_of (map (λ job. job.lines) jobs.items) own.old.lines)
        (option_map (λ writing. writing.opened.value.items) writings.errors) (option_map (λ writing. writing.opened.value.items) writings.file) }
    ensures ok { IfOk result (λ made. AreTotals (S.edges setup.now.system.now) setup.now.place.now
        (record { edition = own.old.press; mirrors = mirrors })
        (begun own.old.press (K.first own.old.records) (K.kept own.old.records)).store
        (passages_of P.terms P.slots P.accepted made.0.ports) made.0.totals.items) }
    ensures replies { IfOk result (λ made. AreLogged (is_some setup.now.place.now.log)
        (passages_of P.terms P.slots P.accepted made.0.ports) (map (λ ended. ended.sent) made.0.ports.log)) }
    ensures page { IfOk result (λ made. Both (λ writing page. IsFilled F.output (one_if (is_some setup.now.place.now.named))
        (unless (is_some writings.entry.file) (map (λ ended. ended.sent) made.0.ports.log)) writing.page page) writings.entry.errors made.1) }
    ensures err { IfErr result (λ error. (error ≡ Thread) ⊎ (error ≡ RoomLeft) ⊎ (error ≡ Unpublished) ⊎ (error ≡ EndedEarly) ⊎ (error ≡ Memory)) }
{
    let rt = setup.runtime();
    let (errors, file) = start_both(scope, rt, writings)?;
    let (run, senders) = run_manned(setup, gate, mirrors, jobs, own)?;
    Ok((run, finish_both(rt, errors, file, senders)))
}

// The same, with the threads that it starts.
fn run_jobs<
    'p,
    P: Port + Send + Drop,
    S: System<P> + Sync,
    R: Clock + Threads + Wait + Sync + AllocGlobal,
    F: WriteWhole + Send,
    G: Gate + Sync,
    K: Records,
>(
    setup: &Setup<'_, S, R>,
    gate: &G,
    mirrors: Mirrors,
    jobs: Vec<Clients<'_, '_, S, R, P>>,
    own: &mut Operating<'_, '_, S, R, P, K>,
    writings: Writings<'p, F>,
) -> Result<(Run<P>, Option<Page<'p, F>>), ServerError>
    requires manned { IsManned (S.edges setup.now.system.now) P.terms setup.now jobs.items own.old }
    requires opened { AreOpened (is_some setup.now.place.now.named) (senders_of (map (λ job. job.lines) jobs.items) own.old.lines)
        (option_map (λ writing. writing.opened.value.items) writings.errors) (option_map (λ writing. writing.opened.value.items) writings.file) }
    ensures ok { IfOk result (λ made. AreTotals (S.edges setup.now.system.now) setup.now.place.now
        (record { edition = own.old.press; mirrors = mirrors })
        (begun own.old.press (K.first own.old.records) (K.kept own.old.records)).store
        (passages_of P.terms P.slots P.accepted made.0.ports) made.0.totals.items) }
    ensures replies { IfOk result (λ made. AreLogged (is_some setup.now.place.now.log)
        (passages_of P.terms P.slots P.accepted made.0.ports) (map (λ ended. ended.sent) made.0.ports.log)) }
    ensures page { IfOk result (λ made. Both (λ writing page. IsFilled F.output (one_if (is_some setup.now.place.now.named))
        (unless (is_some writings.entry.file) (map (λ ended. ended.sent) made.0.ports.log)) writing.page page) writings.entry.errors made.1) }
    ensures err { IfErr result (λ error. (error ≡ Thread) ⊎ (error ≡ RoomLeft) ⊎ (error ≡ Unpublished) ⊎ (error ≡ EndedEarly) ⊎ (error ≡ Memory)) }
{
    let (made, _own) = thread::scope(
        thread::scope_env(),
        setup.rt,
        move |scope| -> (
            Result<(Run<P>, Option<Page<'_, F>>), ServerError>,
            &mut Operating<'_, '_, S, R, P, K>,
        )
            requires manned { IsManned (S.edges setup.now.system.now) P.terms setup.now jobs.items own.now }
            requires opened { AreOpened (is_some setup.now.place.now.named) (senders_of (map (λ job. job.lines) jobs.items) own.now.lines)
                (option_map (λ writing. writing.opened.value.items) writings.errors) (option_map (λ writing. writing.opened.value.items) writings.file) }
            ensures ok { IfOk result.0 (λ made. AreTotals (S.edges setup.entry.now.system.now) setup.entry.now.place.now
                (record { edition = own.entry.now.press; mirrors = mirrors })
                (begun own.entry.now.press (K.first own.entry.now.records) (K.kept own.entry.now.records)).store
                (passages_of P.terms P.slots P.accepted made.0.ports) made.0.totals.items) }
            ensures replies { IfOk result.0 (λ made. AreLogged (is_some setup.entry.now.place.now.log)
                (passages_of P.terms P.slots P.accepted made.0.ports) (map (λ ended. ended.sent) made.0.ports.log)) }
            ensures page { IfOk result.0 (λ made. Both (λ writing page. IsFilled F.output (one_if (is_some setup.entry.now.place.now.named))
                (unless (is_some writings.entry.file) (map (λ ended. ended.sent) made.0.ports.log)) writing.page page) writings.entry.errors made.1) }
            ensures err { IfErr result.0 (λ error. (error ≡ Thread) ⊎ (error ≡ RoomLeft) ⊎ (error ≡ Unpublished) ⊎ (error ≡ EndedEarly) ⊎ (error ≡ Memory)) }
        {
            let made = run_within(scope, setup, gate, mirrors, jobs, own, writings);
            // No proof is generated if the page alone, and not the other reference too, leaves the closure.
            (made, own)
        },
    );
    made
}

/// Serves at the addresses of a place whose folder was found, over an edition that was published, and ends its press. If it
/// succeeds, the outlets have the page of the standard error again.
pub(crate) fn serve_press<
    P: Port + Send + Drop,
    S: System<P> + Sync,
    R: Clock + Threads + Wait + Sync + AllocGlobal,
    F: WriteWhole + Send,
    O: WriteWhole,
    G: Gate + Sync,
    K: Records + Drop,
>(
    setup: &Setup<'_, S, R>,
    publishing: Publishing<K>,
    mirrors: Mirrors,
    views: Vec<View>,
    gate: &G,
    out: &mut O,
    outlets: &mut Outlets<'_, F>,
) -> Result<Run<P>, ServerError>
    requires folder { (S.edges setup.now.system.now).folders setup.now.place.now.packages }
    requires many { length views.items ≡ setup.now.place.now.workers }
    requires views { All (λ sight. sight ≡ fresh publishing.press) views.items }
    requires fit { FitOutlets setup.now.place.now (is_some outlets.old.errors) (is_some outlets.old.file) }
    requires errors { IfSome outlets.old.errors IsUncut }
    requires file { IfSome outlets.old.file IsUncut }
    ensures ok { IfOk result (λ run. HasServed (S.edges setup.now.system.now) setup.now.place.now
        (record { edition = publishing.press; mirrors = mirrors })
        (begun publishing.press (K.first publishing.records) (K.kept publishing.records)).store (O.output out.old) (O.output out.new)
        (passages_of P.terms P.slots P.accepted run.ports) run.totals.items) }
    ensures replies { IfOk result (λ run. AreLogged (is_some setup.now.place.now.log)
        (passages_of P.terms P.slots P.accepted run.ports) (map (λ ended. ended.sent) run.ports.log)) }
    ensures page { IfOk result (λ run. Both (IsFilled F.output (one_if (is_some setup.now.place.now.named))
        (unless (is_some outlets.old.file) (map (λ ended. ended.sent) run.ports.log))) outlets.old.errors outlets.new.errors) }
    ensures err { IfErr result (λ error. IsLater error
        × Stops (S.edges setup.now.system.now) setup.now.place.now (O.output out.old) (O.output out.new) error) }
    ensures early { IfErr result (λ error. IsEarly error → outlets.new ≡ outlets.old) }
{
    let rt = setup.rt;
    let ports = match open_place(rt.alloc(), setup.system, setup.place, out) {
        Ok(ports) => ports,
        Err(error) => {
            publishing.into_press().end(rt);
            return Err(error);
        }
    };
    match crew_of(setup, ports, publishing, views, outlets) {
        Ok(crew) => {
            let Crew {
                jobs,
                own,
                writings,
            } = crew;
            let mut own = own;
            let made = run_jobs(setup, gate, mirrors, jobs, &mut own, writings);
            own.end(rt);
            let (run, page) = made?;
            outlets.errors = page;
            Ok(run)
        }
        Err(press) => {
            press.end(rt);
            Err(ServerError::Memory)
        }
    }
}
