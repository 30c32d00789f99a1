// The log of a server, to which each of its ports sends lines.

ghost use Rattle.std.specs.Prelude.{◌≡◌, ◌≤◌, ◌<◌, ◌+◌, ◌-◌, ◌++◌, ◌&&◌, true, All, IfErr, IfOk, IfSome, if◌then◌else◌, length, map, not, option_map, option_to_list};
ghost use Rattle.std.specs.Option.{is_some};
ghost use Rattle.access_logs.specs.Logs.{IsFresh};
ghost use Rattle.http_ports.specs.Speech.{one_if};
ghost use Rattle.access_logs.specs.Pages.{IsUncut};
ghost use Rattle.access_logs.specs.Queues.{HaveEnded};
ghost use Rattle.server_ports.specs.Logging.{AreOpened, Both, FitOutlets, IsFilled, unless};
ghost use Rattle.server_ports.specs.declared.error.ServerError.TheVariants.{Thread};

use crate::error::ServerError;
use crate::new_sender::NewSender;
use crate::place::Place;
use crate::setup::Setup;
use access_logs::{EndedSender, LineSender, Page, WriterThread, Writing};
use std::alloc::{AllocError, Global};
use std::fs::File;
use std::sync::Wait;
use std::thread::{Scope, Threads};
use streams::WriteWhole;

// How many bytes of lines may wait for the log of each port.
const ROOM: usize = 1 << 19;

/// What the lines of a server are written to: the standard error and a file, if they are.
#[derive(Drop)]
pub struct Outlets<'p, F: WriteWhole> {
    /// The standard error, if its log or what it says of itself is written there.
    pub errors: Option<Page<'p, F>>,
    /// The file of its log, at its end, if it has one.
    pub file: Option<Page<'p, File>>,
}

/// What writes the lines of a server.
#[derive(Drop)]
pub struct Writings<'p, F: WriteWhole> {
    /// Those on the standard error, if there are any.
    pub errors: Option<Writing<'p, F>>,
    /// Those in the file of its log, if it has one.
    pub file: Option<Writing<'p, File>>,
}

/// The senders of a server's ports to its log.
#[derive(Drop)]
pub struct Senders {
    /// One for each worker's port, in order, if there is a log.
    pub clients: Vec<NewSender>,
    /// One for the operator's port, if there are both.
    pub operator: Option<NewSender>,
}

// The senders of a log that was opened, which have sent nothing.
fn all_new(alloc: Global, senders: Vec<LineSender>) -> Result<Vec<NewSender>, AllocError>
    requires { All IsFresh senders.items }
    ensures { IfOk result (λ made. made.items ≡ senders.items) }
{
    let mut made = Vec::new(alloc);
    for sender in senders {
        made.push(NewSender::of(sender))?;
    }
    Ok(made)
}

// The senders of lines, and what writes these, if something does.
struct Lines<'p, F: WriteWhole> {
    senders: Vec<NewSender>,
    writing: Option<Writing<'p, F>>,
}

// Written out, so that no caller proves again how each part is dropped.
impl<F: WriteWhole> Drop for Lines<'_, F> {
    fn drop(self) {
        let Lines {
            senders: _,
            writing: _,
        } = self;
    }
}

impl<'p, F: WriteWhole> Lines<'p, F> {
    // Gives both.
    fn into_parts(self) -> (Vec<NewSender>, Option<Writing<'p, F>>)
        ensures senders { result.0 ≡ self.entry.senders }
        ensures writing { result.1 ≡ self.entry.writing }
    {
        let Lines { senders, writing } = self;
        (senders, writing)
    }
}

// Opens lines of so many senders; without a page there are no senders.
fn open_lines<'p, F: WriteWhole + Send>(
    alloc: Global,
    count: usize,
    page: Option<Page<'p, F>>,
) -> Result<Lines<'p, F>, AllocError>
    requires uncut { IfSome page IsUncut }
    ensures many { IfOk result (λ made. length made.senders.items ≡ (if is_some page.entry then count else 0)) }
    ensures opened { IfOk result (λ made. IfSome made.writing (λ writing. writing.opened.value.items ≡ made.senders.items)) }
    ensures page { IfOk result (λ made. Both (λ page writing. writing.page ≡ page) page.entry made.writing) }
{
    let Some(page) = page else {
        return Ok(Lines {
            senders: Vec::new(alloc),
            writing: None,
        });
    };
    let (senders, writing) = Writing::open(alloc, count, ROOM, page)?;
    let senders = all_new(alloc, senders)?;
    Ok(Lines {
        senders,
        writing: Some(writing),
    })
}

// How many ports there are whose replies are logged, if they are at all.
fn count_ports(place: &Place, is_logged: bool) -> usize
    ensures { result ≡ (if is_logged then place.now.workers + one_if (is_some place.now.operator) else 0) }
{
    if !is_logged {
        return 0;
    }
    with_one(place.workers, place.operator.is_some())
}

// A number, and one more if it is so.
fn with_one(count: usize, is_so: bool) -> usize
    requires { count ≤ 9 }
    ensures { result ≡ count + one_if is_so }
{
    if is_so { count + 1 } else { count }
}

// Whether replies are logged, and in no file.
fn is_on_errors(place: &Place, has_file: bool) -> bool
    ensures { result ≡ (is_some place.now.log && not has_file) }
{
    place.log.is_some() && !has_file
}

// Whether the operator's replies are logged.
fn is_operator_logged(place: &Place) -> bool
    ensures { result ≡ (is_some place.now.log && is_some place.now.operator) }
{
    place.log.is_some() && place.operator.is_some()
}

// The first senders if it is so, else the others.
fn choose(is_so: bool, first: Vec<NewSender>, others: Vec<NewSender>) -> Vec<NewSender>
    ensures { result.items ≡ (if is_so then first.items else others.items) }
{
    if is_so { first } else { others }
}

// What a sender is that has sent nothing, if there is one.
fn lines_of(sender: Option<NewSender>) -> Option<LineSender> {
    match sender {
        Some(sender) => Some(sender.into_lines()),
        None => None,
    }
}

// Parts the last of senders from the others, if it is asked for.
fn part_last<T: Drop>(senders: Vec<T>, is_parted: bool) -> (Vec<T>, Option<T>)
    requires { is_parted ≡ true → 0 < length senders.items }
    ensures all { result.0.items ++ option_to_list result.1 ≡ senders.items }
    ensures parted { is_some result.1 ≡ is_parted }
{
    if !is_parted {
        return (senders, None);
    }
    let mut senders = senders;
    let last = senders.pop();
    (senders, last)
}

// Gives each port its sender to the log, and the server its own, if its place has a name; the log is of the file, or of the
// standard error.
fn part_lines<'p, S, R: Wait, F: WriteWhole + Send>(
    setup: &Setup<'_, S, R>,
    is_here: bool,
    filed: Lines<'p, File>,
    here: Lines<'p, F>,
) -> (Senders, Writings<'p, F>)
    requires fit { FitOutlets setup.now.place.now (is_some here.writing) (is_some filed.writing) }
    requires is_here { is_here ≡ (is_some setup.now.place.now.log && not (is_some filed.writing)) }
    requires filed { length filed.senders.items
        ≡ (if is_some filed.writing then setup.now.place.now.workers + one_if (is_some setup.now.place.now.operator) else 0) }
    requires here { length here.senders.items
        ≡ (if is_some here.writing then (if is_here then setup.now.place.now.workers + one_if (is_some setup.now.place.now.operator) else 0) + one_if (is_some setup.now.place.now.named) else 0) }
    requires filed_opened { IfSome filed.writing (λ writing. writing.opened.value.items ≡ filed.senders.items) }
    requires here_opened { IfSome here.writing (λ writing. writing.opened.value.items ≡ here.senders.items) }
    ensures many { length result.0.clients.items ≡ (if is_some setup.now.place.now.log then setup.now.place.now.workers else 0) }
    ensures operator { is_some result.0.operator ≡ (is_some setup.now.place.now.log && is_some setup.now.place.now.operator) }
    ensures opened { AreOpened (is_some setup.now.place.now.named) (result.0.clients.items ++ option_to_list result.0.operator)
        (option_map (λ writing. writing.opened.value.items) here.entry.writing) (option_map (λ writing. writing.opened.value.items) filed.entry.writing) }
    ensures errors { result.1.errors ≡ here.entry.writing }
    ensures file { result.1.file ≡ filed.entry.writing }
{
    let (filed, file) = filed.into_parts();
    let (others, errors) = here.into_parts();
    let (others, own) = part_last(others, setup.place.named.is_some());
    setup.notes.lock(setup.rt).begin(lines_of(own));
    let senders = choose(is_here, others, filed);
    let (clients, operator) = part_last(senders, is_operator_logged(setup.place));
    (Senders { clients, operator }, Writings { errors, file })
}

/// Opens the lines of a server: its replies', if they are logged, and what it says of itself, whose lines go to the standard
/// error. Each port has a sender to the log, if there is one, and the server has its own, if its place has a name. It takes
/// the pages, also if it fails, as it does if memory runs out.
pub fn open_outlets<'p, S, R: Wait + AllocGlobal, F: WriteWhole + Send>(
    setup: &Setup<'_, S, R>,
    outlets: &mut Outlets<'p, F>,
) -> Result<(Senders, Writings<'p, F>), AllocError>
    requires fit { FitOutlets setup.now.place.now (is_some outlets.old.errors) (is_some outlets.old.file) }
    requires errors { IfSome outlets.old.errors IsUncut }
    requires file { IfSome outlets.old.file IsUncut }
    ensures many { IfOk result (λ made. length made.0.clients.items ≡ (if is_some setup.now.place.now.log then setup.now.place.now.workers else 0)) }
    ensures operator { IfOk result (λ made. is_some made.0.operator ≡ (is_some setup.now.place.now.log && is_some setup.now.place.now.operator)) }
    ensures opened { IfOk result (λ made. AreOpened (is_some setup.now.place.now.named) (made.0.clients.items ++ option_to_list made.0.operator)
        (option_map (λ writing. writing.opened.value.items) made.1.errors) (option_map (λ writing. writing.opened.value.items) made.1.file)) }
    ensures page { IfOk result (λ made. Both (λ page writing. writing.page ≡ page) outlets.old.errors made.1.errors) }
    ensures filed { IfOk result (λ made. is_some made.1.file ≡ is_some outlets.old.file) }
{
    let (alloc, place) = (setup.rt.alloc(), setup.place);
    let filed = open_lines(alloc, count_ports(place, true), outlets.file.take())?;
    let is_here = is_on_errors(place, filed.writing.is_some());
    let count = with_one(count_ports(place, is_here), place.named.is_some());
    let here = open_lines(alloc, count, outlets.errors.take())?;
    Ok(part_lines(setup, is_here, filed, here))
}

/// Starts the thread of what writes lines, if there is something. Fails with `Thread` if it can't be started.
pub fn start_writing<'s, 'p, E, R: Wait + Sync, F: WriteWhole + Send>(
    scope: &Scope<'s, E>,
    rt: &'s R,
    writing: Option<Writing<'p, F>>,
) -> Result<Option<WriterThread<'s, 'p, R, F>>, ServerError>
where
    'p: 's,
    ensures began { IfOk result (λ thread. Both (λ writing thread. thread.began.value ≡ writing) writing.entry thread) }
    ensures err { IfErr result (λ error. error ≡ Thread) }
{
    match writing {
        None => Ok(None),
        Some(writing) => match writing.start(scope, rt) {
            Some(thread) => Ok(Some(thread)),
            None => Err(ServerError::Thread),
        },
    }
}

/// Ends the thread of what writes lines, if there is one, once the log's first senders have ended, and gives the page back:
/// all that they have sent was received and, unless a write failed, written.
pub fn finish_writing<'p, R: Threads + Wait, F: WriteWhole + Send>(
    rt: &R,
    thread: Option<WriterThread<'_, 'p, R, F>>,
    ended: Vec<EndedSender>,
) -> Option<Page<'p, F>>
    requires ended { IfSome thread (λ thread. HaveEnded thread.began.value.opened.value.items ended.items) }
    ensures written { Both (λ thread page. IsFilled F.output (length thread.began.value.opened.value.items - length ended.items)
        (map (λ sender. sender.sent) ended.items) thread.began.value.page page) thread.entry result }
{
    match thread {
        Some(thread) => Some(thread.finish(rt, ended)),
        None => None,
    }
}

/// The senders that have ended of the log on the standard error, and those of the file's, by where it is.
pub fn by_page(
    alloc: Global,
    has_file: bool,
    ended: Vec<EndedSender>,
) -> (Vec<EndedSender>, Vec<EndedSender>)
    ensures errors { result.0.items ≡ unless has_file ended.items }
    ensures file { result.1.items ≡ unless (not has_file) ended.items }
{
    let none = Vec::new(alloc);
    if has_file {
        (none, ended)
    } else {
        (ended, none)
    }
}
