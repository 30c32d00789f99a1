//! A client's walk: it asks, installs what is offered, and asks again.

ghost use Rattle.std.specs.Prelude.{◌≡◌, ◌+◌, ◌<◌, ◌++◌, [], length, string_bytes, IfOk};
ghost use Rattle.std.specs.Result.{result_map_both};
ghost use Rattle.update_client.specs.Clients.{address_of, step_of};
ghost use Rattle.update_client.specs.Installed.{Installed};
ghost use Rattle.update_client.specs.Installing.{Rejects};
ghost use Rattle.update_client.specs.Walks.{IsLastOffer, Moves, OpensFile, Posts, Takes, Turned, Walks, failed_links, failed_installers};

use crate::client::{Client, make_request};
use crate::fault::Fault;
use crate::hearing::{Accepted, hear, offered_part};
use crate::installer::{Installer, Step};
use crate::installing::install;
use crate::link::Link;
use omaha_json::{Offer, write_request};
use std::alloc::{AllocError, Global};
use values::{ReadError, Text};

/// The most steps of one walk.
pub const MAX_STEPS: u64 = 1024;

/// How far a walk went.
#[derive(Clone, Copy, Drop, PartialEq, Eq)]
pub struct Walk {
    /// How many offers were installed.
    pub steps: u64,
    /// How many bytes they had.
    pub bytes: u128,
}

// Posts the request of a client.
fn post_request<L: Link>(
    alloc: Global,
    link: &mut L,
    client: &Client,
) -> Result<Vec<u8>, ReadError<Fault>>
    ensures posts { Posts client.now (L.posts link.old) (L.posts link.new)
        (result_map_both (λ reply. reply.items) (λ error. error) result) }
    ensures opened { L.opened link.new ≡ L.opened link.old }
    ensures failed { L.failures link.new ≡ L.failures link.old + failed_links result }
{
    let request = make_request(alloc, client)?;
    let body = write_request(alloc, &request)?;
    let Ok(reply) = link.post(alloc, &body) else {
        return Err(ReadError::Fault(Fault::Link));
    };
    Ok(reply)
}

// rule: Address of a download
// The address of an offer's file: the codebase and the name.
fn join_address(alloc: Global, offer: &Offer) -> Result<String, AllocError>
    ensures { IfOk result (λ address. string_bytes address ≡ address_of offer.now) }
{
    let part = offered_part(offer);
    let mut address = String::from_str(alloc, part.codebase.as_str())?;
    address.push_str(part.name.as_str())?;
    Ok(address)
}

fn make_step(alloc: Global, offer: &Offer) -> Result<Step, AllocError>
    ensures { IfOk result (λ step. step ≡ step_of offer.now) }
{
    Ok(Step {
        diff: offer.diff.is_some(),
        version: Text::copy_of(alloc, offer.version.as_str())?,
        fp: Text::copy_of(alloc, offer.fp.as_str())?,
        bytes: offered_part(offer).size,
    })
}

// Installs what was accepted.
fn download<L: Link, I: Installer>(
    alloc: Global,
    link: &mut L,
    installer: &mut I,
    block: &mut [u8],
    accepted: &Accepted,
) -> Result<Step, ReadError<Fault>>
    requires room { 0 < length block.old }
    requires empty { I.staged installer.old ≡ [] }
    ensures takes { (client after : Installed) → Moves client after accepted.now result → Takes client after accepted.now
        (I.commits installer.old) (I.commits installer.new) (L.received link.new) (L.ended link.new) result }
    ensures posts { L.posts link.new ≡ L.posts link.old }
    ensures opens { OpensFile accepted.now (L.opened link.old) (L.opened link.new) result }
    ensures staged { I.staged installer.new ≡ [] }
    ensures link_failed { L.failures link.new ≡ L.failures link.old + failed_links result }
    ensures installer_failed { I.failures installer.new
        ≡ I.failures installer.old + failed_installers result }
    ensures rejected { Rejects (λ tried. tried ≡ step_of accepted.now.offer) (I.rejected installer.old)
        (I.rejected installer.new) (failed_installers result) }
    ensures kept { (first : _) → I.holds_since first installer.old → I.holds_since first installer.new }
{
    let step = make_step(alloc, &accepted.offer)?;
    let address = join_address(alloc, &accepted.offer)?;
    let Ok(()) = link.open(address.as_str()) else {
        return Err(ReadError::Fault(Fault::Link));
    };
    install(
        link,
        installer,
        block,
        &step,
        &offered_part(&accepted.offer).hash,
    )?;
    Ok(step)
}

// Installs what was accepted, and moves the client on.
fn take<L: Link, I: Installer>(
    alloc: Global,
    client: &mut Client,
    link: &mut L,
    installer: &mut I,
    block: &mut [u8],
    accepted: Accepted,
) -> Result<Step, ReadError<Fault>>
    requires room { 0 < length block.old }
    requires empty { I.staged installer.old ≡ [] }
    ensures takes { Takes client.old client.new accepted (I.commits installer.old)
        (I.commits installer.new) (L.received link.new) (L.ended link.new) result }
    ensures posts { L.posts link.new ≡ L.posts link.old }
    ensures opens { OpensFile accepted (L.opened link.old) (L.opened link.new) result }
    ensures staged { I.staged installer.new ≡ [] }
    ensures link_failed { L.failures link.new ≡ L.failures link.old + failed_links result }
    ensures installer_failed { I.failures installer.new
        ≡ I.failures installer.old + failed_installers result }
    ensures rejected { Rejects (λ tried. tried ≡ step_of accepted.offer) (I.rejected installer.old)
        (I.rejected installer.new) (failed_installers result) }
    ensures kept { (first : _) → I.holds_since first installer.old → I.holds_since first installer.new }
{
    let step = download(alloc, link, installer, block, &accepted)?;
    client.take_over(accepted);
    Ok(step)
}

impl Client {
    // rule: Steps of a walk
    /// Asks once, and installs what is offered: one step of a walk, before which there were `steps`.
    ///
    /// Returns the step, or `None` if there is no update. `block` is not empty, and nothing is staged. Takes the
    /// differential if one is offered. Errors, in the order in which they are looked for: `Link` if the post
    /// failed; `Reply` if the reply is invalid or is not for this known app alone; `Busy`; `NoProgress` if the
    /// offered fingerprint is the installed one; `TooManySteps` if there were 1024 steps before; and those of
    /// `install`. After an error the client is unchanged, nothing was committed, and nothing is staged.
    pub fn step<L: Link, I: Installer>(
        &mut self,
        alloc: Global,
        link: &mut L,
        installer: &mut I,
        block: &mut [u8],
        steps: u64,
    ) -> Result<Option<Step>, ReadError<Fault>>
        requires room { 0 < length block.old }
        requires empty { I.staged installer.old ≡ [] }
        ensures turned { Turned self.old self.new steps (L.posts link.old) (L.posts link.new)
            (L.opened link.old) (L.opened link.new) (I.commits installer.old) (I.commits installer.new)
            (L.received link.new) (L.ended link.new) result }
        ensures staged { I.staged installer.new ≡ [] }
        ensures link_failed { L.failures link.new ≡ L.failures link.old + failed_links result }
        ensures installer_failed { I.failures installer.new
            ≡ I.failures installer.old + failed_installers result }
        ensures rejected { Rejects (IsLastOffer self.new (L.posts link.new)) (I.rejected installer.old)
            (I.rejected installer.new) (failed_installers result) }
        ensures kept { (first : _) → I.holds_since first installer.old → I.holds_since first installer.new }
    {
        let reply = post_request(alloc, link, self)?;
        let news = hear(alloc, self.app(), &reply)?;
        let Some(accepted) = news else {
            return Ok(None);
        };
        if accepted.offer.fp.as_str() == self.fp() {
            return Err(ReadError::Fault(Fault::NoProgress));
        }
        if steps >= MAX_STEPS {
            return Err(ReadError::Fault(Fault::TooManySteps));
        }
        let step = take(alloc, self, link, installer, block, accepted)?;
        Ok(Some(step))
    }

    // rule: Walk of a client
    /// Asks, installs what is offered, and asks again until there is no update.
    ///
    /// `block` is not empty, and nothing is staged. Errors are those of `step`, `TooManySteps` at an offer after
    /// 1024 steps. After an error the client is where its last commit led, and nothing is staged.
    pub fn walk<L: Link, I: Installer>(
        &mut self,
        alloc: Global,
        link: &mut L,
        installer: &mut I,
        block: &mut [u8],
    ) -> Result<Walk, ReadError<Fault>>
        requires room { 0 < length block.old }
        requires empty { I.staged installer.old ≡ [] }
        ensures walks { Walks self.old self.new (L.posts link.old) (L.posts link.new)
            (L.opened link.old) (L.opened link.new) (I.commits installer.old)
            (I.commits installer.new) (L.received link.new) (L.ended link.new) result }
        ensures staged { I.staged installer.new ≡ [] }
        ensures link_failed { L.failures link.new ≡ L.failures link.old + failed_links result }
        ensures installer_failed { I.failures installer.new
            ≡ I.failures installer.old + failed_installers result }
        ensures rejected { Rejects (IsLastOffer self.new (L.posts link.new)) (I.rejected installer.old)
            (I.rejected installer.new) (failed_installers result) }
        ensures kept { (first : _) → I.holds_since first installer.old → I.holds_since first installer.new }
    {
        let mut steps: u64 = 0;
        let mut bytes: u128 = 0;
        'steps: while let Some(step) = self.step(alloc, link, installer, block, steps)? {
            steps += 1;
            bytes += u128::from(step.bytes);
        }
        Ok(Walk { steps, bytes })
    }
}
