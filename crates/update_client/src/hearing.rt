//! What a client hears in a reply.

ghost use Rattle.std.specs.Prelude.{◌≡◌, Option};
ghost use Rattle.values.specs.Reading.{Reads};
ghost use Rattle.update_client.specs.Clients.{only_known, news_of, heard, part_of};

use crate::fault::Fault;
use omaha_json::{AppReply, AppState, CheckReply, KnownApp, Offer, Part, Reply, read_reply};
use std::alloc::Global;
use values::{ReadError, Text};

/// An offer, with the cohort text of its reply.
pub struct Accepted {
    /// The cohort text to send next, or empty.
    pub cohort: Text,
    /// The offer.
    pub offer: Offer,
}

// Written out, so that no caller proves again how each part is dropped.
impl Drop for Accepted {
    fn drop(self) {
        let Accepted {
            cohort: _,
            offer: _,
        } = self;
    }
}

impl Accepted {
    pub(crate) fn into_parts(self) -> (Text, Offer)
        ensures cohort { result.0 ≡ self.cohort }
        ensures offer { result.1 ≡ self.offer }
    {
        let Accepted { cohort, offer } = self;
        (cohort, offer)
    }
}

// Takes the only app out of a reply, if it is known and has that identifier.
fn take_known(reply: Reply, app: &str) -> Option<KnownApp>
    ensures { result ≡ only_known app.now reply.apps }
{
    let Reply { apps, .. } = reply;
    let mut apps = apps.into_vec();
    let Some(one) = apps.pop() else {
        return None;
    };
    if !apps.is_empty() {
        return None;
    }
    let AppReply { appid, state } = one;
    if !appid.as_str().eq_ignore_ascii_case(app) {
        return None;
    }
    match state {
        AppState::Known(known) => Some(known),
        AppState::Unknown => None,
        AppState::Other => None,
    }
}

fn take_news(known: Option<KnownApp>) -> Result<Option<Accepted>, Fault>
    ensures { result ≡ news_of known }
{
    let Some(known) = known else {
        return Err(Fault::Reply);
    };
    let KnownApp { cohort, check, .. } = known;
    match check {
        Some(CheckReply::Offered(offer)) => Ok(Some(Accepted { cohort, offer })),
        Some(CheckReply::NoUpdate) => Ok(None),
        Some(CheckReply::Internal) => Err(Fault::Busy),
        Some(CheckReply::Other) => Err(Fault::Reply),
        None => Err(Fault::Reply),
    }
}

// rule: Reply that a client hears
pub(crate) fn hear(
    alloc: Global,
    app: &str,
    bytes: &[u8],
) -> Result<Option<Accepted>, ReadError<Fault>>
    ensures { Reads (λ news. news) result (heard app.now bytes.now) }
{
    let reply = match read_reply(alloc, bytes) {
        Ok(reply) => reply,
        Err(ReadError::Memory) => return Err(ReadError::Memory),
        Err(ReadError::Fault(_)) => return Err(ReadError::Fault(Fault::Reply)),
    };
    Ok(take_news(take_known(reply, app))?)
}

pub(crate) fn offered_part(offer: &Offer) -> &Part
    ensures { result.now ≡ part_of offer.now }
{
    match &offer.diff {
        Some(part) => part,
        None => &offer.full,
    }
}
