//! What holds of replies, of walks, and of walks over a server of one catalogue, each law as a clause of a
//! function.

ghost use Rattle.theorems.specs.Examples.{ExampleIsWorked};
ghost use Rattle.theorems.specs.Laws.{AsksGetReplies, OffersAreSteps, PlansAreOne, RepliesAreWhole, StatusesSay, TrackGraphsAreGraphs, WalksAreLeast, WalksAreShort, WalksEnd, WalksExist, WalksKeepTracks, WalksNeedChains};
ghost use Rattle.theorems.specs.ServedLaws.{ServedWalksAreLeast, ServedWalksAreWalks};

use update_client::Link;

// rule: Reply to an ask
/// States that each app of a request gets a reply to its ask if all bytes of the plan were granted, and
/// that each reply to an ask is one of a whole reply.
pub fn replies()
    ensures each { AsksGetReplies }
    ensures whole { RepliesAreWhole }
{}

/// States that a request has one plan by each content that a history leads to.
pub fn plans()
    ensures { PlansAreOne }
{
    catalogue::version_laws::order();
    catalogue::histories::validity();
}

/// States that the graph of a track of a valid app is one, as `price_cert` checks tables against.
pub fn graphs()
    ensures { TrackGraphsAreGraphs }
{
    catalogue::version_laws::order();
}

// rule: Status of an update check
/// States what the status of an update check says: `noupdate` that the client is at its target or that no
/// chain leads there, `error-internal` that there is a chain and no mirror granted its first payload, and
/// an offer that it is of that payload.
pub fn statuses()
    ensures { StatusesSay }
{
    catalogue::version_laws::order();
    catalogue::histories::validity();
}

// rule: Next ask
/// States that an offer is a step: by the first payload of a chain of the least sum, to the release where
/// the client is when it asks next, on the track that it had.
pub fn steps()
    ensures { OffersAreSteps }
{
    catalogue::version_laws::order();
    catalogue::histories::validity();
    cohorts::laws::cohort_texts();
}

// rule: Walk
/// States how a client fares that takes each offer and asks again, in a catalogue that stays as it is.
///
/// Each reply may come from a mirror of its own. There is a walk, unless there is no mirror; and every walk
/// makes at most as many offers as the app has releases, and ends with `noupdate`. If a chain leads from
/// the start to the target of the client's track, the walk ends at the target, and the bytes of its offers
/// are the least sum of such a chain; if none does, it makes no offer. The client's track stays the same, with its pin.
pub fn walk()
    ensures exists { WalksExist }
    ensures short { WalksAreShort }
    ensures ends { WalksEnd }
    ensures least { WalksAreLeast }
    ensures nowhere { WalksNeedChains }
    ensures track { WalksKeepTracks }
{
    catalogue::version_laws::order();
    catalogue::histories::validity();
    cohorts::laws::cohort_texts();
}

/// Shows the asks and the bytes of a client that goes from 1.0 to 4.0 by three differentials.
pub fn example()
    ensures { ExampleIsWorked }
{}

// rule: Walk over one catalogue
/// States what a walk that ended well came to, if a server of one catalogue replied to each of its posts and
/// a mirror granted all requested bytes.
///
/// The replies are a walk from the client's first ask to its last one, with as many offers as the client
/// made steps, and with their bytes. In the catalogue of a history it made at most as many steps as the app has
/// releases. If a chain leads from where the client was to the target of its track, the walk's bytes are the
/// least sum of such a chain, and the client is at the target; if none does, it made no step. The link is
/// the one of the walk.
pub fn served_walks<L: Link>(link: &L)
    ensures served { ServedWalksAreWalks (L.received link.now) (L.ended link.now) }
    ensures least { ServedWalksAreLeast (L.received link.now) (L.ended link.now) }
{
    let _link = link;
    omaha_json::client::laws::replies_are_read_back();
    crate::laws::replies();
    crate::laws::walk();
    catalogue::histories::validity();
}
