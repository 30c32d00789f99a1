// The command `serve`.

ghost use Rattle.std.specs.Prelude.{◌≡◌, ◌⊎◌, Err, IfOk, IfSome, option_map};
ghost use Rattle.failures.specs.declared.failure.Failure.TheVariants.{Thread};
ghost use Rattle.omaha_cli.specs.Serving.{EndsAs, IsAlone, IsHostedBy, IsPlaceOf, IsQuiet, IsUnbound, IsUnopened, ServesOn, followed_at, served_name};
ghost use Rattle.server_ports.specs.Logging.{IsSilent};
ghost use Rattle.streams.specs.Streams.{Known};

use etcd_records::is_etcd_path;
use failures::Failure;
use http_ports::Port;
use kept_records::{Records, Stores};
use omaha_arguments::{Serve, VERSION};
use omaha_histories::{follow, open_beginning};
use omaha_server::{Place, ServerError, serve};
use service_desks::KeptService;
use std::alloc::{AllocError, Global};
use std::sync::Wait;
use std::sync::atomic::{AtomicBool, Ordering};
use std::thread;
use std::thread::{Threads, join_mut};
use std::time::{Clock, Duration};
use streams::{Disk, WriteWhole};
use systems::System;
use update_client::Connector;
use values::Text;
use worker_threads::Free;

// The failure of a server whose log can't be opened.
fn unopened(log: &Option<Text>) -> Failure
    ensures { IsUnopened log.now result }
{
    let Some(path) = log else {
        return Failure::Memory;
    };
    match path.clone() {
        Ok(path) => Failure::File(path),
        Err(_) => Failure::Memory,
    }
}

// The failure of a server whose operator's address can't be bound.
fn unbound(operator: &Option<Text>) -> Failure
    ensures { IsUnbound operator.now result }
{
    let Some(address) = operator else {
        return Failure::Memory;
    };
    match address.clone() {
        Ok(address) => Failure::Net(address),
        Err(_) => Failure::Memory,
    }
}

// The end of the command by the end of its server.
fn end_of<A: Drop>(ended: Result<A, ServerError>, asked: &Serve) -> Result<(), Failure>
    ensures { EndsAs ended asked.now result }
{
    match ended {
        Ok(_) => Ok(()),
        Err(ServerError::Net) => Err(Failure::Net(asked.listen.clone()?)),
        Err(ServerError::OperatorNet) => Err(unbound(&asked.operator)),
        Err(ServerError::Log) => Err(unopened(&asked.log)),
        Err(ServerError::Folder) => Err(Failure::File(asked.packages.clone()?)),
        Err(ServerError::Package(name, lack)) => Err(Failure::Package(name, lack)),
        Err(ServerError::NoPlace) => Err(Failure::NoPlace),
        Err(ServerError::Thread) => Err(Failure::Thread),
        Err(ServerError::RoomLeft) => Err(Failure::RoomLeft),
        Err(ServerError::Unpublished) => Err(Failure::Unpublished),
        Err(ServerError::EndedEarly) => Err(Failure::EndedEarly),
        Err(ServerError::Write) => Err(Failure::Write),
        Err(ServerError::Memory) => Err(Failure::Memory),
    }
}

// Closes the addresses of a server if it was served; another server may have them if it wasn't.
fn close_addresses<P: Port, S: System<P>>(system: &S, asked: &Serve, served: bool) {
    if !served {
        return;
    }
    system.close_address(asked.listen.as_str());
    if let Some(operator) = &asked.operator {
        system.close_address(operator.as_str());
    }
}

// A copy of a string that may be missing.
fn copy_of(text: &Option<Text>) -> Result<Option<Text>, AllocError>
    ensures { IfOk result (λ copy. copy ≡ text.now) }
{
    match text {
        Some(text) => Ok(Some(text.clone()?)),
        None => Ok(None),
    }
}

// rule: Name of what is served
// The name of what is served, if the server says of itself what it does: the profile's path, or that of the history.
fn name_of(asked: &Serve, verbose: bool) -> Result<Option<Text>, AllocError>
    ensures { IfOk result (λ named. named ≡ served_name verbose asked.now.profile asked.now.history) }
{
    if !verbose {
        return Ok(None);
    }
    match &asked.profile {
        Some(profile) => Ok(Some(profile.clone()?)),
        None => copy_of(&asked.history),
    }
}

// Where, by how many workers and for how long to serve.
fn place_of(alloc: Global, asked: &Serve, verbose: bool) -> Result<Place, AllocError>
    ensures { IfOk result (λ place. IsPlaceOf asked.now verbose place) }
{
    Ok(Place {
        address: asked.listen.clone()?,
        operator: copy_of(&asked.operator)?,
        packages: asked.packages.clone()?,
        workers: asked.workers.max(1).min(8) as usize,
        sessions: asked.sessions,
        edits: asked.edits,
        log: copy_of(&asked.log)?,
        seconds: asked.timeout.max(1),
        idle: asked.idle.max(1),
        connections: asked.connections,
        pinned_tables: asked.pinned_tables,
        packages_must_exist: asked.packages_must_exist,
        named: name_of(asked, verbose)?,
        version: Text::copy_of(alloc, VERSION)?,
    })
}

// The operator's address of a server that shares its history, which other servers may add records to.
fn followed_at(asked: &Serve) -> Option<&str>
    ensures { option_map (λ address. address.now) result ≡ followed_at asked.now.history asked.now.operator }
{
    let Some(history) = &asked.history else {
        return None;
    };
    if !is_etcd_path(history.as_str()) {
        return None;
    }
    match &asked.operator {
        Some(operator) => Some(operator.as_str()),
        None => None,
    }
}

// Serves to the end, and lets the ports and the addresses go: who waits there for a reply waits no longer.
fn host<
    P: Port + Send + Drop,
    S: System<P> + Sync,
    R: Clock + AllocGlobal + Threads + Sync + Wait,
    K: Records + Drop,
    W: WriteWhole,
    F: WriteWhole + Send,
>(
    rt: &R,
    system: &S,
    kept: KeptService<K>,
    place: &Place,
    asked: &Serve,
    writer: &mut W,
    errors: &mut F,
) -> Result<(), Failure>
    ensures hosted { IsHostedBy (S.edges system.now) place.now
        (record { service = kept.service; first = K.first kept.records; records = K.kept kept.records }) asked.now
        (W.output writer.old) (W.output writer.new) (F.output errors.old) (F.output errors.new) result }
    ensures silent { IsSilent place.now → errors.new ≡ errors.old }
{
    let ended = serve(rt, system, kept, place, &Free, writer, errors);
    close_addresses(system, asked, ended.is_ok());
    end_of(ended, asked)
}

// Waits until another thread has begun, for five seconds at most; whether it has.
fn has_soon<R: Clock>(rt: &R, has_begun: &AtomicBool) -> bool {
    for _step in 0..250u32 {
        if has_begun.load(Ordering::SeqCst) {
            return true;
        }
        thread::sleep(rt, Duration::from_millis(20));
    }
    has_begun.load(Ordering::SeqCst)
}

// Serves. If other servers share the history, the server's own operator's address is meanwhile asked for their records, in
// another thread; without such a thread nothing is served.
fn serve_kept<
    P: Port + Send + Drop,
    S: System<P> + Sync,
    R: Clock + Connector + AllocGlobal + Threads + Sync + Wait,
    K: Records + Drop,
    W: WriteWhole,
    F: WriteWhole + Send,
>(
    rt: &R,
    system: &S,
    kept: KeptService<K>,
    place: &Place,
    asked: &Serve,
    writer: &mut W,
    errors: &mut F,
) -> Result<(), Failure>
    ensures hosted { IsHostedBy (S.edges system.now) place.now
        (record { service = kept.service; first = K.first kept.records; records = K.kept kept.records }) asked.now
        (W.output writer.old) (W.output writer.new) (F.output errors.old) (F.output errors.new) result
        ⊎ IsAlone asked.now (W.output writer.old) (W.output writer.new) (F.output errors.old) (F.output errors.new) result }
    ensures silent { IsSilent place.now → errors.new ≡ errors.old }
{
    let Some(operator) = followed_at(asked) else {
        return host(rt, system, kept, place, asked, writer, errors);
    };
    let has_begun = AtomicBool::new(false);
    let has_ended = AtomicBool::new(false);
    let mut kept = Some(kept);
    let ((), ended) = join_mut(
        rt,
        &mut || {
            has_begun.store(true, Ordering::SeqCst);
            follow(rt, rt.alloc(), operator, asked.follow, &has_ended);
        },
        &mut || -> Result<(), Failure>
            ensures hosted { IfSome kept.entry (λ served. IsHostedBy (S.edges system.entry.now) place.entry.now
                (record { service = served.service; first = K.first served.records; records = K.kept served.records }) asked.entry.now
                (W.output writer.entry.now) (W.output writer.exit.now) (F.output errors.entry.now) (F.output errors.exit.now) result
                ⊎ ((result ≡ Err Thread) × (W.output writer.exit.now ≡ W.output writer.entry.now)
                × (F.output errors.exit.now ≡ F.output errors.entry.now))) }
            ensures silent { IsSilent place.entry.now → errors.exit.now ≡ errors.entry.now }
        {
            let ended = match kept.take() {
                Some(kept) => {
                    if has_soon(rt, &has_begun) {
                        host(rt, system, kept, place, asked, writer, errors)
                    } else {
                        Err(Failure::Thread)
                    }
                }
                None => Err(Failure::Memory),
            };
            has_ended.store(true, Ordering::SeqCst);
            ended
        },
    );
    ended
}

// rule: Service over HTTP
/// Serves a profile or a history and its packages, takes the operator's scripts, and prints the mirrors' totals at the
/// end.
///
/// With a history each script and each raise is kept before it takes effect. With one in etcd the records of the other
/// servers are looked for again and again, in a thread of its own. Fails, in this order, with the history,
/// the profile's file, another profile than the history's, the profile's first fault, its first rejected edit, the
/// first record that doesn't follow, the log, the folder of packages, a package that must be there and isn't, no place
/// for a worker's view, the address, the operator's address, the writer, and a thread that can't be started; the writer
/// may also fail after the last session. Replies are logged on `errors` if the log is `-`, and what the server says of
/// itself is written there if it is `verbose`; otherwise `errors` is left as it is.
pub(crate) fn serve_profile<
    P: Port + Send + Drop,
    S: System<P> + Sync,
    R: Disk + Clock + Connector + AllocGlobal + Threads + Sync + Wait,
    H: Stores,
    W: WriteWhole,
    F: WriteWhole + Send,
>(
    rt: &R,
    system: &S,
    stores: &H,
    asked: &Serve,
    verbose: bool,
    writer: &mut W,
    errors: &mut F,
) -> Result<(), Failure>
    ensures silent { IsQuiet verbose asked.now.log → errors.new ≡ errors.old }
    ensures serves { (input : Known) → ServesOn (R.file_at rt.now) (H.found stores.now) (S.edges system.now) verbose asked.now
        (record { input = input; output = W.output writer.old })
        (record { input = input; output = W.output writer.new })
        (F.output errors.old) (F.output errors.new) result }
{
    let kept = match open_beginning(rt, stores, asked) {
        Ok(kept) => kept,
        Err(failure) => return Err(failure),
    };
    let Ok(place) = place_of(rt.alloc(), asked, verbose) else {
        return Err(Failure::Memory);
    };
    serve_kept(rt, system, kept, &place, asked, writer, errors)
}
