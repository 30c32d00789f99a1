// The pages of the operator's address, and its status.

ghost use Rattle.std.specs.Prelude.{◌≡◌, ◌≤◌, ◌^◌, IfOk, bytes_eq, codes, length, true};
ghost use Rattle.operator_pages.specs.AppSights.{AreSights};
ghost use Rattle.editions.specs.Editions.{content_of};
ghost use Rattle.http_desks.specs.Calls.{answer_in};
ghost use Rattle.http_desks.specs.Pages.{page_in};
ghost use Rattle.omaha_server.specs.Outcomes.{asks_number, counted_by, followed_in, is_word, outcome_in, outcome_of, reach_in};
ghost use Rattle.server_ports.specs.Counting.{cohort_counts};
ghost use Rattle.omaha_server.specs.Showing.{AreGranted, IsKnown, ShowsPage, ShowsStatus, IsOverview};
ghost use Rattle.omaha_server.specs.Overviews.{Overview, counted_at, has_more, last_edits, publish_of, published_by, settled_count, with_adopted};
ghost use Rattle.service_desks.specs.States.{State, earlier_in};
ghost use Rattle.tallies.specs.Totals.{IsOfSize};

use crate::circumstances::Circumstances;
use catalogue::Mirror;
use editions::Edition;
use http_desks::{Answer, DeskStatus, Off, Page};
use mirror_ledger::Budgets;
use operator_pages::{
    AppSight, Counts, Outcome, Publish, Publishes, Reach, Shown, page_at, sights_of, status_string,
};
use publisher::{Prepared, Press};
use server_ports::{ServedSoFar, Setup, Traffic};
use std::alloc::{AllocError, Global};
use std::sync::Wait;

// The mirrors with their present budgets, what each granted so far, what was served, and what is seen of the apps.
struct Funds {
    mirrors: Vec<Mirror>,
    granted: Vec<u64>,
    served: ServedSoFar,
    sights: Vec<AppSight>,
}

// Written out, so that no caller proves again how each part is dropped.
impl Drop for Funds {
    fn drop(self) {
        let Funds {
            mirrors: _,
            granted: _,
            served: _,
            sights: _,
        } = self;
    }
}

// What each of so many mirrors granted so far.
fn granted_of<R: Wait, B: Budgets>(
    rt: &R,
    alloc: Global,
    budgets: &mut B,
    many: usize,
) -> Result<Vec<u64>, AllocError>
    requires { many ≡ length (B.present budgets.old) }
    ensures granted { IfOk result (λ granted. AreGranted (B.present budgets.old) granted.items) }
    ensures present { B.present budgets.new ≡ B.present budgets.old }
    ensures rises { B.rises budgets.new ≡ B.rises budgets.old }
{
    let mut granted = Vec::new(alloc);
    for index in 0..many {
        let bytes = budgets.granted(rt, index);
        granted.push(bytes)?;
    }
    Ok(granted)
}

// What is seen of the apps of an edition, if it is to be seen.
fn sights_if(alloc: Global, edition: &Edition, is_seen: bool) -> Result<Vec<AppSight>, AllocError>
    ensures { IfOk result (λ sights. is_seen ≡ true → AreSights (content_of edition.now) sights.items) }
{
    if is_seen {
        sights_of(alloc, edition.catalogue(), edition.tables())
    } else {
        Ok(Vec::new(alloc))
    }
}

// The mirrors with their present budgets, what they granted, what was served of the apps of an edition, and what is seen
// of them, if it is to be.
fn funds_of<R: Wait, B: Budgets>(
    rt: &R,
    alloc: Global,
    budgets: &mut B,
    traffic: &Traffic,
    edition: &Edition,
    is_seen: bool,
) -> Result<Funds, AllocError>
    ensures seen { IfOk result (λ funds. is_seen ≡ true → AreSights (content_of edition.now) funds.sights.items) }
    ensures mirrors { IfOk result (λ funds. funds.mirrors.items ≡ B.present budgets.old) }
    ensures granted { IfOk result (λ funds. AreGranted (B.present budgets.old) funds.granted.items) }
    ensures sized { IfOk result (λ funds. IsOfSize (length funds.mirrors.items) (cohort_counts (content_of edition.now)) funds.served.totals) }
    ensures present { B.present budgets.new ≡ B.present budgets.old }
    ensures rises { B.rises budgets.new ≡ B.rises budgets.old }
{
    let mirrors = budgets.mirrors(alloc)?;
    let granted = granted_of(rt, alloc, budgets, mirrors.len())?;
    let served = traffic.served(alloc, mirrors.len(), edition.catalogue().apps())?;
    let sights = sights_if(alloc, edition, is_seen)?;
    Ok(Funds {
        mirrors,
        granted,
        served,
        sights,
    })
}

// What the pages of a program of this version are made of.
fn shown_of<'a>(
    press: &'a Press,
    funds: &'a Funds,
    version: &'a str,
    publishes: &'a [Publish],
    circumstances: &Circumstances,
) -> Shown<'a>
    requires granted { AreGranted funds.now.mirrors.items funds.now.granted.items }
    requires sized { IsOfSize (length funds.now.mirrors.items) (cohort_counts (content_of press.now)) funds.now.served.totals }
    ensures sights { result.sights.now ≡ funds.now.sights.items }
    ensures known { (overview : Overview) → IsOverview press.now funds.now.mirrors.items publishes.now circumstances.now overview
        → IsKnown version.now overview result }
{
    let edition = press.edition();
    Shown {
        apps: edition.catalogue().apps(),
        sights: funds.sights.as_slice(),
        edition: circumstances.earlier + edition.number(),
        mirrors: funds.mirrors.as_slice(),
        granted: funds.granted.as_slice(),
        counts: circumstances.counts,
        ending: circumstances.ending,
        publishes,
        version,
        address: funds.served.address.as_str(),
        totals: &funds.served.totals,
    }
}

// The page of a path, if it has one.
fn page_of<'a>(
    alloc: Global,
    press: &'a Press,
    funds: &'a Funds,
    version: &'a str,
    publishes: &'a [Publish],
    circumstances: &Circumstances,
    at: &[u8],
) -> Result<Option<Page>, Off>
    requires granted { AreGranted funds.now.mirrors.items funds.now.granted.items }
    requires sized { IsOfSize (length funds.now.mirrors.items) (cohort_counts (content_of press.now)) funds.now.served.totals }
    requires seen { bytes_eq at.now (codes "/") ≡ true → AreSights (content_of press.now) funds.now.sights.items }
    ensures { (overview : Overview) → IsOverview press.now funds.now.mirrors.items publishes.now circumstances.now overview
        → ShowsPage version.now overview at.now (page_in result) }
{
    let shown = shown_of(press, funds, version, publishes, circumstances);
    match page_at(alloc, at, &shown) {
        Ok(page) => Ok(page),
        Err(_) => Err(Off::Memory),
    }
}

// The reply with the status.
fn status_of<'a>(
    alloc: Global,
    press: &'a Press,
    funds: &'a Funds,
    version: &'a str,
    publishes: &'a [Publish],
    circumstances: &Circumstances,
) -> Result<Answer, Off>
    requires granted { AreGranted funds.now.mirrors.items funds.now.granted.items }
    requires sized { IsOfSize (length funds.now.mirrors.items) (cohort_counts (content_of press.now)) funds.now.served.totals }
    ensures { (overview : Overview) → IsOverview press.now funds.now.mirrors.items publishes.now circumstances.now overview
        → ShowsStatus version.now overview (answer_in result) }
{
    let shown = shown_of(press, funds, version, publishes, circumstances);
    match status_string(alloc, &shown) {
        Ok(text) => Ok(Answer {
            status: DeskStatus::Success,
            body: text.into_bytes(),
        }),
        Err(_) => Err(Off::Memory),
    }
}

// rule: Pages of an operator
/// Returns the page of a path, if it has one.
pub(crate) fn show_page<S, R: Wait + AllocGlobal, B: Budgets>(
    setup: &Setup<'_, S, R>,
    press: &Press,
    budgets: &mut B,
    version: &str,
    publishes: &[Publish],
    circumstances: &Circumstances,
    at: &[u8],
) -> Result<Option<Page>, Off>
    ensures shows { (overview : Overview) → IsOverview press.now (B.present budgets.old) publishes.now circumstances.now overview
        → ShowsPage version.now overview at.now (page_in result) }
    ensures present { B.present budgets.new ≡ B.present budgets.old }
    ensures rises { B.rises budgets.new ≡ B.rises budgets.old }
{
    let (rt, traffic) = (setup.rt, setup.traffic);
    let is_seen = at == b"/".as_slice();
    match funds_of(rt, rt.alloc(), budgets, traffic, press.edition(), is_seen) {
        Ok(funds) => page_of(
            rt.alloc(),
            press,
            &funds,
            version,
            publishes,
            circumstances,
            at,
        ),
        Err(_) => Err(Off::Memory),
    }
}

// rule: Status on demand
/// Returns the reply to the body that asks for the status.
pub(crate) fn show_status<S, R: Wait + AllocGlobal, B: Budgets>(
    setup: &Setup<'_, S, R>,
    press: &Press,
    budgets: &mut B,
    version: &str,
    publishes: &[Publish],
    circumstances: &Circumstances,
) -> Result<Answer, Off>
    ensures shows { (overview : Overview) → IsOverview press.now (B.present budgets.old) publishes.now circumstances.now overview
        → ShowsStatus version.now overview (answer_in result) }
    ensures present { B.present budgets.new ≡ B.present budgets.old }
    ensures rises { B.rises budgets.new ≡ B.rises budgets.old }
{
    let (rt, traffic) = (setup.rt, setup.traffic);
    match funds_of(rt, rt.alloc(), budgets, traffic, press.edition(), false) {
        Ok(funds) => status_of(rt.alloc(), press, &funds, version, publishes, circumstances),
        Err(_) => Err(Off::Memory),
    }
}

// Whether a body publishes, adopts and raises nothing.
fn is_word(body: &[u8]) -> bool
    ensures { result ≡ is_word body.now }
{
    body == b"dump".as_slice() || body == b"status".as_slice() || body == b"stop".as_slice()
}

// Whether a body only asks for the number of the edition: it is a script without edits for no edition.
fn asks_number(body: &[u8]) -> bool
    ensures { result ≡ asks_number body.now }
{
    body == b"schema = 1\nbase = 0\n".as_slice()
}

// What a look for a record of another server came to, by its line.
fn followed_in(line: &[u8]) -> Option<Outcome>
    ensures { result ≡ followed_in line.now }
{
    if line.starts_with(b"followed ") {
        Some(Outcome::Followed)
    } else {
        None
    }
}

// What a call of 200 came to.
fn outcome_of(body: &[u8], line: &[u8]) -> Option<Outcome>
    ensures { result ≡ outcome_of body.now line.now }
{
    if body.starts_with(b"raise ") {
        Some(Outcome::Raised)
    } else if body == b"follow".as_slice() {
        followed_in(line)
    } else if is_word(body) {
        None
    } else {
        Some(Outcome::Published)
    }
}

// What a call came to.
fn outcome_in(body: &[u8], answered: &Result<Answer, Off>) -> Option<Outcome>
    ensures { result ≡ outcome_in body.now (answer_in answered.now) }
{
    match answered {
        Ok(answer) => match answer.status {
            DeskStatus::Success => outcome_of(body, answer.body.as_slice()),
            DeskStatus::BadRequest => Some(Outcome::Malformed),
            DeskStatus::Conflict if asks_number(body) => None,
            DeskStatus::Conflict => Some(Outcome::Stale),
            DeskStatus::UnprocessableContent => Some(Outcome::Rejected),
            DeskStatus::ServiceUnavailable => Some(Outcome::Unreachable),
        },
        Err(_) if is_word(body) => None,
        Err(_) => Some(Outcome::Failed),
    }
}

// rule: Reach by a call
// What a call found of the history, by whether it published an edition.
fn reach_in(published: bool, body: &[u8], answered: &Result<Answer, Off>) -> Reach
    ensures { result ≡ reach_in published body.now (answer_in answered.now) }
{
    match answered {
        Ok(answer) => match answer.status {
            DeskStatus::Success if is_word(body) => Reach::Unasked,
            DeskStatus::Success => Reach::Replies,
            DeskStatus::BadRequest => Reach::Unasked,
            DeskStatus::Conflict if published => Reach::Replies,
            DeskStatus::Conflict => Reach::Unasked,
            DeskStatus::UnprocessableContent => Reach::Unasked,
            DeskStatus::ServiceUnavailable => Reach::Unreachable,
        },
        Err(_) => Reach::Unasked,
    }
}

// Counts a call by what it came to.
fn counted_by(outcome: Option<Outcome>, counts: Counts) -> Counts
    ensures { result ≡ counted_by outcome counts }
{
    match outcome {
        None => counts,
        Some(outcome) => counts.counted(outcome),
    }
}

// rule: Counts of an operator
/// Counts a call at a time by its body and its reply, and notes what it found of the history, by whether it published an
/// edition.
pub(crate) fn count_call(
    counts: Counts,
    body: &[u8],
    answered: &Result<Answer, Off>,
    published: bool,
    moment: u64,
) -> Counts
    ensures { result ≡ counted_at moment (outcome_in body.now (answer_in answered.now))
        (reach_in published body.now (answer_in answered.now)) counts }
{
    let counts = counted_by(outcome_in(body, answered), counts);
    counts.heard(reach_in(published, body, answered), moment)
}

/// How many editions are published once what is due is shown.
pub(crate) fn settled_count(press: &Press, due: &Option<Prepared>) -> u64
    ensures { result ≡ settled_count press.now due.now }
{
    let count = press.edition().number();
    match due {
        None => count,
        Some(_) => count + 1,
    }
}

/// Whether more editions than so many are published.
pub(crate) fn has_more(count: u64, press: &Press) -> bool
    ensures { result ≡ has_more count press.now }
{
    count < press.edition().number()
}

// How many edits the last batch of an edition has.
fn last_edits(edition: &Edition) -> u64
    ensures { result ≡ last_edits edition.now }
{
    let batches = edition.batches();
    match batches.len() {
        0 => 0,
        many => batches[many - 1].edits().len() as u64,
    }
}

/// The publish of the edition that is published, at a time, as one of this server.
pub(crate) fn publish_of(edition: &Edition, earlier: u64, moment: u64) -> Publish
    requires { earlier ≤ 2 ^ 53 }
    ensures { (state : State) → state.history ≡ edition.now → earlier_in state.store ≡ earlier
        → result ≡ publish_of state moment }
{
    Publish {
        edition: earlier + edition.number(),
        time: moment,
        edits: last_edits(edition),
        adopted: false,
    }
}

// Notes a publish of another server, if there was one.
fn note_adopted(publishes: &mut Publishes, published: bool, publish: Publish)
    ensures { publishes.new ≡ with_adopted published publish publishes.old }
{
    if published {
        let mut adopted = publish;
        adopted.adopted = true;
        publishes.push(adopted);
    }
}

// rule: Publish of another server
/// Notes a publish, by whether a call published an edition: that of the call's own script, or of another server's.
pub(crate) fn note_publish(
    publishes: &mut Publishes,
    body: &[u8],
    answered: &Result<Answer, Off>,
    published: bool,
    publish: Publish,
)
    ensures { publishes.new ≡ published_by (outcome_in body.now (answer_in answered.now)) published publish publishes.old }
{
    match outcome_in(body, answered) {
        Some(Outcome::Published) => publishes.push(publish),
        _ => note_adopted(publishes, published, publish),
    }
}
