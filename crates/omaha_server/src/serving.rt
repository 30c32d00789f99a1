// A service over HTTP, by workers that begin together.

ghost use Rattle.std.specs.Prelude.{◌≡◌, ◌⊎◌, ◌≤◌, [], true, All, length, map, IfErr, IfOk, IfSome};
ghost use Rattle.std.specs.Option.{is_some, option_copied};
ghost use Rattle.http_ports.specs.Speech.{one_if};
ghost use Rattle.access_logs.specs.Pages.{IsUncut};
ghost use Rattle.access_logs.specs.Queues.{IsWhole};
ghost use Rattle.publisher.specs.Sights.{fresh};
ghost use Rattle.server_ports.specs.Logging.{AreLogged, Both, FitOutlets, IsFilled, IsLoggedHere, IsSilent, file_of, is_dash, unless};
ghost use Rattle.omaha_server.specs.Checking.{IsChecked, IsLackOf};
ghost use Rattle.omaha_server.specs.Checks.{IsStockedFor};
ghost use Rattle.server_ports.specs.Passages.{passages_in, passages_of};
ghost use Rattle.omaha_server.specs.Runs.{PrintsLines};
ghost use Rattle.server_ports.specs.Errors.{IsEarly, IsLater, IsUnlogged};
ghost use Rattle.omaha_server.specs.Serving.{IsLogged, IsOpened, Serves, begun};
ghost use Rattle.server_ports.specs.declared.error.ServerError.TheVariants.{Memory, NoPlace};

use crate::crew::Publishing;
use crate::jobs::serve_press;
use access_logs::Page;
use editions::Edition;
use http_ports::Port;
use kept_records::Records;
use package_files::{Lacking, look_for_apps};
use publisher::{Press, PublishError, View, open_edition};
use server_ports::{
    Ending, Notes, Outlets, Place, ServedPorts, ServerError, Setup, SystemFolder, Traffic,
};
use service_desks::{KeptService, Mirrors, Service, names_of, totals_string};
use std::alloc::Global;
use std::fs::File;
use std::sync::{Mutex, Wait};
use std::thread::Threads;
use std::time::Clock;
use streams::WriteWhole;
use systems::System;
use values::Text;
use worker_threads::Gate;

// Publishes an edition to the views of so many workers.
fn open_views<R: Wait>(
    rt: &R,
    alloc: Global,
    edition: Edition,
    workers: usize,
) -> Result<(Press, Vec<View>), ServerError>
    requires { (1 ≤ workers) × (workers ≤ 8) }
    ensures press { IfOk result (λ made. made.0 ≡ edition) }
    ensures many { IfOk result (λ made. length made.1.items ≡ workers) }
    ensures views { IfOk result (λ made. All (λ sight. sight ≡ fresh edition) made.1.items) }
    ensures err { IfErr result (λ error. (error ≡ NoPlace) ⊎ (error ≡ Memory)) }
{
    match open_edition(rt, alloc, edition, workers) {
        Ok(made) => Ok(made),
        Err(PublishError::NoPlace) => Err(ServerError::NoPlace),
        Err(_) => Err(ServerError::Memory),
    }
}

// Prints the totals of mirrors of those names.
fn print_totals<O: WriteWhole>(
    alloc: Global,
    names: &[Text],
    totals: &[u64],
    out: &mut O,
) -> Result<(), ServerError>
    ensures { PrintsLines names.now totals.now (O.output out.old) (O.output out.new) result }
{
    let text = totals_string(alloc, names, totals)?;
    match out.write_whole(text.as_str().as_bytes()) {
        Ok(()) => Ok(()),
        Err(_) => Err(ServerError::Write),
    }
}

// The error of a server that lacks a package.
fn lack_of(alloc: Global, lacking: &Lacking<'_>) -> ServerError
    ensures { IsLackOf (lacking.now.name.now, lacking.now.lack) result }
{
    match Text::copy_of(alloc, lacking.name) {
        Ok(name) => ServerError::Package(name, lacking.lack),
        Err(_) => ServerError::Memory,
    }
}

// rule: Packages at the start of a server
// Fails with the first package of an edition that isn't in the folder of a place, if they must be there.
fn check_packages<P: Port, S: System<P>, R: AllocGlobal>(
    setup: &Setup<'_, S, R>,
    edition: &Edition,
) -> Result<(), ServerError>
    ensures { IsChecked (S.edges setup.now.system.now) setup.now.place.now edition.now result }
{
    let place = setup.place;
    if !place.packages_must_exist {
        return Ok(());
    }
    let folder = SystemFolder::<S, P>::new(setup.system, place.packages.as_str());
    match look_for_apps(&folder, edition.catalogue().apps()) {
        Ok(()) => Ok(()),
        Err(lacking) => Err(lack_of(setup.rt.alloc(), &lacking)),
    }
}

// Serves a service whose packages were looked for, and logs its replies, if there is something to write them to.
fn serve_found<
    P: Port + Send + Drop,
    S: System<P> + Sync,
    R: Clock + Threads + Wait + Sync + AllocGlobal,
    F: WriteWhole + Send,
    O: WriteWhole,
    G: Gate + Sync,
    K: Records + Drop,
>(
    setup: &Setup<'_, S, R>,
    kept: KeptService<K>,
    gate: &G,
    out: &mut O,
    outlets: &mut Outlets<'_, F>,
) -> Result<ServedPorts<P>, ServerError>
    requires folder { (S.edges setup.now.system.now).folders setup.now.place.now.packages }
    requires fit { FitOutlets setup.now.place.now (is_some outlets.old.errors) (is_some outlets.old.file) }
    requires errors { IfSome outlets.old.errors IsUncut }
    requires file { IfSome outlets.old.file IsUncut }
    ensures serves { Serves (S.edges setup.now.system.now) setup.now.place.now kept.service
        (begun kept.service.edition (K.first kept.records) (K.kept kept.records)).store (O.output out.old) (O.output out.new)
        (passages_in P.terms P.slots P.accepted result) }
    ensures replies { IfOk result (λ ports. AreLogged (is_some setup.now.place.now.log)
        (passages_of P.terms P.slots P.accepted ports) (map (λ ended. ended.sent) ports.log)) }
    ensures page { IfOk result (λ ports. Both (IsFilled F.output (one_if (is_some setup.now.place.now.named))
        (unless (is_some outlets.old.file) (map (λ ended. ended.sent) ports.log))) outlets.old.errors outlets.new.errors) }
    ensures later { IfErr result IsLater }
    ensures early { IfErr result (λ error. IsEarly error → outlets.new ≡ outlets.old) }
{
    let (rt, place) = (setup.rt, setup.place);
    if setup.traffic.is_short() {
        return Err(ServerError::Memory);
    }
    let KeptService { service, records } = kept;
    let names = names_of(rt.alloc(), service.mirrors.as_slice())?;
    let Service { edition, mirrors } = service;
    let (press, views) = open_views(rt, rt.alloc(), edition, place.workers)?;
    let publishing = Publishing { press, records };
    let run = serve_press(setup, publishing, mirrors, views, gate, out, outlets)?;
    let (ports, totals) = run.into_parts();
    match print_totals(rt.alloc(), names.as_slice(), &totals, out) {
        Ok(()) => Ok(ports),
        Err(error) => Err(error),
    }
}

// rule: Run of a server
// Serves a service whose folder is there, with its packages, if they must be.
fn serve_with<
    P: Port + Send + Drop,
    S: System<P> + Sync,
    R: Clock + Threads + Wait + Sync + AllocGlobal,
    F: WriteWhole + Send,
    O: WriteWhole,
    G: Gate + Sync,
    K: Records + Drop,
>(
    setup: &Setup<'_, S, R>,
    kept: KeptService<K>,
    gate: &G,
    out: &mut O,
    outlets: &mut Outlets<'_, F>,
) -> Result<ServedPorts<P>, ServerError>
    requires fit { FitOutlets setup.now.place.now (is_some outlets.old.errors) (is_some outlets.old.file) }
    requires errors { IfSome outlets.old.errors IsUncut }
    requires file { IfSome outlets.old.file IsUncut }
    ensures serves { Serves (S.edges setup.now.system.now) setup.now.place.now kept.service
        (begun kept.service.edition (K.first kept.records) (K.kept kept.records)).store (O.output out.old) (O.output out.new)
        (passages_in P.terms P.slots P.accepted result) }
    ensures replies { IfOk result (λ ports. AreLogged (is_some setup.now.place.now.log)
        (passages_of P.terms P.slots P.accepted ports) (map (λ ended. ended.sent) ports.log)) }
    ensures page { IfOk result (λ ports. Both (IsFilled F.output (one_if (is_some setup.now.place.now.named))
        (unless (is_some outlets.old.file) (map (λ ended. ended.sent) ports.log))) outlets.old.errors outlets.new.errors) }
    ensures unlogged { IfErr result IsUnlogged }
    ensures early { IfErr result (λ error. IsEarly error → outlets.new ≡ outlets.old) }
    ensures stocked { IsStockedFor (S.edges setup.now.system.now) setup.now.place.now kept.service.edition
        (O.output out.old) (O.output out.new) result }
{
    if !setup.system.has_folder(setup.place.packages.as_str()) {
        return Err(ServerError::Folder);
    }
    match check_packages::<P, S, R>(setup, &kept.service.edition) {
        Ok(()) => serve_found(setup, kept, gate, out, outlets),
        Err(error) => Err(error),
    }
}

// Whether a path means the standard error.
fn is_dash(path: &str) -> bool
    ensures { result ≡ is_dash path.now }
{
    path == "-"
}

// The file of a log, if it has one.
fn file_of(log: &Option<Text>) -> Option<&str>
    ensures { option_copied result ≡ file_of log.now }
{
    match log {
        Some(path) if !is_dash(path.as_str()) => Some(path.as_str()),
        _ => None,
    }
}

// rule: Standard error of a server
// Serves a service that has no file for its log, and writes on the standard error.
fn serve_here<
    P: Port + Send + Drop,
    S: System<P> + Sync,
    R: Clock + Threads + Wait + Sync + AllocGlobal,
    F: WriteWhole + Send,
    O: WriteWhole,
    G: Gate + Sync,
    K: Records + Drop,
>(
    setup: &Setup<'_, S, R>,
    kept: KeptService<K>,
    gate: &G,
    out: &mut O,
    errors: &mut F,
) -> Result<ServedPorts<P>, ServerError>
    ensures serves { Serves (S.edges setup.now.system.now) setup.now.place.now kept.service
        (begun kept.service.edition (K.first kept.records) (K.kept kept.records)).store (O.output out.old) (O.output out.new)
        (passages_in P.terms P.slots P.accepted result) }
    ensures unlogged { IfErr result IsUnlogged }
    ensures replies { IfOk result (λ ports. AreLogged (is_some setup.now.place.now.log)
        (passages_of P.terms P.slots P.accepted ports) (map (λ ended. ended.sent) ports.log)) }
    ensures page { IfOk result (λ ports. IsWhole (one_if (is_some setup.now.place.now.named)) (map (λ ended. ended.sent) ports.log)
        (F.output errors.old) (F.output errors.new)) }
    ensures early { IfErr result (λ error. IsEarly error → F.output errors.new ≡ F.output errors.old) }
    ensures stocked { IsStockedFor (S.edges setup.now.system.now) setup.now.place.now kept.service.edition
        (O.output out.old) (O.output out.new) result }
{
    let mut outlets = Outlets {
        errors: Some(Page::new(errors)),
        file: None,
    };
    let ended = serve_with(setup, kept, gate, out, &mut outlets);
    let Outlets {
        errors: page,
        file: _,
    } = outlets;
    if let Some(page) = page {
        let written = page.into_inner();
        // No effect at run time. The proof reads what was written from this use of it.
        let _ = &*written;
    }
    ended
}

// Serves a service that logs its replies in a file, and says on the standard error what it does.
fn serve_beside<
    P: Port + Send + Drop,
    S: System<P> + Sync,
    R: Clock + Threads + Wait + Sync + AllocGlobal,
    F: WriteWhole + Send,
    O: WriteWhole,
    G: Gate + Sync,
    K: Records + Drop,
>(
    setup: &Setup<'_, S, R>,
    kept: KeptService<K>,
    gate: &G,
    out: &mut O,
    errors: &mut F,
    path: &str,
) -> Result<ServedPorts<P>, ServerError>
    requires logged { is_some setup.now.place.now.log ≡ true }
    ensures serves { Serves (S.edges setup.now.system.now) setup.now.place.now kept.service
        (begun kept.service.edition (K.first kept.records) (K.kept kept.records)).store (O.output out.old) (O.output out.new)
        (passages_in P.terms P.slots P.accepted result) }
    ensures opened { IsOpened (S.edges setup.now.system.now) path.now result }
    ensures replies { IfOk result (λ ports. AreLogged (is_some setup.now.place.now.log)
        (passages_of P.terms P.slots P.accepted ports) (map (λ ended. ended.sent) ports.log)) }
    ensures page { IfOk result (λ ports. IsWhole (one_if (is_some setup.now.place.now.named)) [] (F.output errors.old) (F.output errors.new)) }
    ensures early { IfErr result (λ error. IsEarly error → F.output errors.new ≡ F.output errors.old) }
    ensures stocked { IsStockedFor (S.edges setup.now.system.now) setup.now.place.now kept.service.edition
        (O.output out.old) (O.output out.new) result }
{
    let Ok(mut file) = setup.system.open_log(path) else {
        return Err(ServerError::Log);
    };
    let mut outlets = Outlets {
        errors: Some(Page::new(errors)),
        file: Some(Page::new(&mut file)),
    };
    let ended = serve_with(setup, kept, gate, out, &mut outlets);
    let Outlets {
        errors: page,
        file: _,
    } = outlets;
    if let Some(page) = page {
        let written = page.into_inner();
        // No effect at run time. The proof reads what was written from this use of it.
        let _ = &*written;
    }
    ended
}

// Serves a service that writes nothing on the standard error.
fn serve_silently<
    P: Port + Send + Drop,
    S: System<P> + Sync,
    R: Clock + Threads + Wait + Sync + AllocGlobal,
    O: WriteWhole,
    G: Gate + Sync,
    K: Records + Drop,
>(
    setup: &Setup<'_, S, R>,
    kept: KeptService<K>,
    gate: &G,
    out: &mut O,
    path: Option<&str>,
) -> Result<ServedPorts<P>, ServerError>
    requires silent { IsSilent setup.now.place.now }
    requires path { option_copied path ≡ file_of setup.now.place.now.log }
    ensures serves { Serves (S.edges setup.now.system.now) setup.now.place.now kept.service
        (begun kept.service.edition (K.first kept.records) (K.kept kept.records)).store (O.output out.old) (O.output out.new)
        (passages_in P.terms P.slots P.accepted result) }
    ensures logged { IsLogged (S.edges setup.now.system.now) setup.now.place.now.log result }
    ensures replies { IfOk result (λ ports. AreLogged (is_some setup.now.place.now.log)
        (passages_of P.terms P.slots P.accepted ports) (map (λ ended. ended.sent) ports.log)) }
    ensures stocked { IsStockedFor (S.edges setup.now.system.now) setup.now.place.now kept.service.edition
        (O.output out.old) (O.output out.new) result }
{
    let Some(path) = path else {
        let mut outlets = Outlets {
            errors: None::<Page<'_, File>>,
            file: None,
        };
        return serve_with(setup, kept, gate, out, &mut outlets);
    };
    let Ok(mut file) = setup.system.open_log(path) else {
        return Err(ServerError::Log);
    };
    let mut outlets = Outlets {
        errors: None::<Page<'_, File>>,
        file: Some(Page::new(&mut file)),
    };
    serve_with(setup, kept, gate, out, &mut outlets)
}

// What a server of a service counts in.
fn traffic_of(alloc: Global, workers: usize, service: &Service) -> Traffic {
    let apps = service.edition.catalogue().apps();
    Traffic::new(alloc, workers, service.mirrors.as_slice().len(), apps)
}

// rule: Run of a server
// rule: Edges of a server
/// Serves a service's update checks and its packages, takes the operator's scripts and raises of budgets, and prints
/// the mirrors' totals at the end.
///
/// Opens the log, if there is to be one, looks for the folder of packages, and for the packages of the edition, if they
/// must exist, publishes the edition, binds the addresses and opens a port for each worker and one for the operator,
/// prints `ready`, opens books of the mirrors' budgets, and lets its workers begin together, each in a thread of its
/// own: each serves its port, with its portion of the clients' connections, and the calling thread the operator's. No
/// connection holds another up. Then it prints a line for each mirror: its name and how many bytes it was granted.
/// A mirror's budget holds for this server since its start: another start, or another server, has the whole of it again.
/// `gate` is called in each worker's thread before it serves. Returns the ports.
///
/// Fails, in this order, with the log, the folder, the first package that isn't there, memory, no place for a view, the
/// address, the operator's address, the output, and a thread that can't be started; in that case no connection was
/// accepted, and `errors` is as it was, unless memory, the output or a thread failed. Memory may also run out after
/// `ready`; then no total is printed. Nor is one if bytes were rejected for which a mirror has room, by its total and
/// its first budget, if a worker's view at its end is not of what the operator published, or if a port ended early
/// though nobody asked the server to end. No test has seen one of the three.
///
/// The operator may ask the server to end: then the workers' ports accept no more connections, end those on which no
/// message has begun, and reply to the messages that have; and then the operator's port ends.
///
/// The log gets a line for each reply, as `access_logs` has it, at the end of its file, or on `errors`, which is
/// otherwise left as it is; workers never mix their lines. A line that can't be written is lost, and holds up no reply. What
/// was sent to the log is given back with the ports. If `errors` is the log, all of it was received and written there, but
/// for what a write failed to write; beside it is only what the server says of itself.
///
/// If the place has a name, the server says of itself on `errors`, in lines that begin with `omaha: `, what it serves,
/// which packages are not in the folder, what is published and raised, which package kept a script from being
/// published, and once in an edition that the downloads of a package fail.
pub fn serve<
    'a,
    P: Port + Send + Drop,
    S: System<P> + Sync,
    R: Clock + Threads + Wait + Sync + AllocGlobal,
    O: WriteWhole,
    F: WriteWhole + Send,
    G: Gate + Sync,
    K: Records + Drop,
>(
    rt: &'a R,
    system: &'a S,
    kept: KeptService<K>,
    place: &'a Place,
    gate: &G,
    out: &mut O,
    errors: &mut F,
) -> Result<ServedPorts<P>, ServerError>
    ensures serves { Serves (S.edges system.now) place.now kept.service
        (begun kept.service.edition (K.first kept.records) (K.kept kept.records)).store (O.output out.old) (O.output out.new)
        (passages_in P.terms P.slots P.accepted result) }
    ensures logged { IsLogged (S.edges system.now) place.now.log result }
    ensures replies { IfOk result (λ ports. AreLogged (is_some place.now.log)
        (passages_of P.terms P.slots P.accepted ports) (map (λ ended. ended.sent) ports.log)) }
    ensures stocked { IsStockedFor (S.edges system.now) place.now kept.service.edition
        (O.output out.old) (O.output out.new) result }
    ensures silent { IsSilent place.now → errors.new ≡ errors.old }
    ensures lines { IfOk result (λ ports. IsLoggedHere place.now (map (λ ended. ended.sent) ports.log)
        (F.output errors.old) (F.output errors.new)) }
    ensures early { IfErr result (λ error. IsEarly error → F.output errors.new ≡ F.output errors.old) }
{
    let notes = Mutex::new(Notes::new(rt.alloc()));
    let ending = Ending::new(place.workers);
    let traffic = traffic_of(rt.alloc(), place.workers, &kept.service);
    let setup = Setup {
        system,
        rt,
        place,
        notes: &notes,
        ending: &ending,
        traffic: &traffic,
    };
    let is_named = place.named.is_some();
    match file_of(&place.log) {
        Some(path) if is_named => serve_beside(&setup, kept, gate, out, errors, path),
        None if is_named || place.log.is_some() => serve_here(&setup, kept, gate, out, errors),
        path => serve_silently(&setup, kept, gate, out, path),
    }
}
