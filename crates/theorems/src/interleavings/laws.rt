//! What holds after every interleaving of publishers, workers and operators, each law as a clause of a function.

ghost use Rattle.theorems.specs.Calls.{LoneCallsAreForRoom, WorkerCallsAreEvents};
ghost use Rattle.theorems.specs.Entries.{JobsGoByWhatIsPublished};
ghost use Rattle.theorems.specs.Events.{happens};
ghost use Rattle.theorems.specs.Headline.{OffersLeadToTargets, RepliesSayTrue};
ghost use Rattle.theorems.specs.LargerRuns.{DifferentialAndPin, HeardOfABatch, PinnedOffer, SecondMirrorGrants, TwoAppsInOneReply};
ghost use Rattle.theorems.specs.InterleavingLaws.{BatchesArePublishedInTurn, BatchesArePublishedWhole, BudgetsAreThoseOfRaises, JobsGoByWhatWasSeen, PlansAreByPrices, PublishedIsAccepted, PublishedStays, RepliesAreOfOneCatalogue, RequestsHaveRows, SeenIsPublished, SeenNeverFalls, SharesAreOfJobs, TotalsAreWithinBudgets};
ghost use Rattle.theorems.specs.Requests.{RepliesAreToGivenRequests};
ghost use Rattle.theorems.specs.Restart.{DumpsAreProfiles, OperatorsOnlyRaise, RestartsKeepReplies, ServicesOpenAgain};
ghost use Rattle.theorems.specs.Runs.{BudgetEnds, BudgetRaised, DropAfterGrant, FailedConditions, PublishBetween, RejectedWithRoom, StalePublish};
ghost use Rattle.theorems.specs.InterleavingServed.{RunsAreInterleavings, ServedRepliesArePublished};
ghost use Rattle.theorems.specs.ServedRuns.{CallsWorked, LookedUp, ProceedingsRejected, RunWorked};
ghost use Rattle.theorems.specs.Ties.{AnswersAreOfPending, FullBooksReject, FullIsNotPublished, GrantsAreBooked, NextIsPublished, OperatorCallsAreEvents, PressPublishes, RaisesAreEvents, RaisesByNameAreEvents, RejectedIsNotPublished, RoomIsTested, ScriptsArePublished, WorkersReplyByOneHistory};
ghost use Rattle.theorems.specs.Wrong.{EntriesBreak, GrantsBreak, PlansAndRepliesBreak, PublishesBreak, RequestsBreak};

// rule: Service
// rule: Worker
// rule: Event
// rule: Interleaving
// rule: Every interleaving
/// States what holds of a service after every list of events since it opened with an accepted history, for any number
/// of workers, mirrors and batches.
///
/// Each rendered reply is the reply to its request at its time, by its outcomes and by the first batches that are
/// published, of the number that its job entered; its job goes by no fewer batches than its worker had seen or heard
/// of before. What a worker has seen never falls, and is published. Each mirror's total is the sum of the workers'
/// shares and within its current budget, which is the highest one that it was given. The mirrors with their present
/// budgets are those that the raises left, each of which changed one budget, or none if it was to a lower one. Each share
/// is the sum of what the mirror granted for the worker's jobs: for those that ended with a reply, for those that were
/// dropped, and for the one that it has.
pub fn every_interleaving()
    ensures replies { RepliesAreOfOneCatalogue happens }
    ensures later { JobsGoByWhatWasSeen happens }
    ensures seen { SeenNeverFalls happens }
    ensures published { SeenIsPublished happens }
    ensures budgets { TotalsAreWithinBudgets happens }
    ensures exact { BudgetsAreThoseOfRaises happens }
    ensures shares { SharesAreOfJobs happens }
{
    catalogue::histories::growth();
    catalogue::histories::prefixes();
    catalogue::histories::validity();
    quotes::laws::rows();
    crate::laws::graphs();
}

// rule: Published history
/// States that what is published is an accepted history of 1 to 4096 batches, that it stays so, that each of its
/// batches was given as a whole, and that a batch is published exactly if it is accepted, there is room, and its
/// publisher knew of all batches before it.
///
/// The last clause restates the definition of the event; `wrong_machines` has machines that break it.
pub fn publishing()
    ensures accepted { PublishedIsAccepted happens }
    ensures stays { PublishedStays happens }
    ensures whole { BatchesArePublishedWhole happens }
    ensures turn { BatchesArePublishedInTurn happens }
{
    catalogue::histories::growth();
    catalogue::histories::prefixes();
    catalogue::histories::validity();
    quotes::laws::rows();
    crate::laws::graphs();
}

/// States to which request each reply is, and by which batches each job goes.
///
/// For each reply the worker entered its job, planned it for the request and rendered it at the reply's time, and ended
/// no other job in between. Each job, also one without a reply, goes by all batches that were published when the
/// worker entered it.
pub fn requests()
    ensures given { RepliesAreToGivenRequests happens }
    ensures entries { JobsGoByWhatIsPublished happens }
{}

// rule: Statuses of every interleaving
/// States what each reply of every interleaving says of each app that wants an update, in the catalogue that its job
/// entered.
///
/// `noupdate` says that the client is at its target or that no chain of permitted payloads leads there,
/// `error-internal` that no mirror granted the first payload of a chain of the least sum, and an offer is of that
/// payload, from a mirror that granted its bytes.
pub fn statuses()
    ensures { RepliesSayTrue happens }
{
    crate::interleavings::laws::every_interleaving();
    crate::laws::statuses();
}

/// States where the offers of every interleaving lead: a client that takes one can go on, while the catalogue stays as
/// it was for the reply and mirrors grant what is asked, and then comes to its target for the least sum of bytes.
pub fn following()
    ensures { OffersLeadToTargets happens }
{
    crate::interleavings::laws::every_interleaving();
    crate::laws::statuses();
    crate::laws::steps();
    crate::laws::walk();
}

// rule: Choice by prices
/// States that each plan by a history's content is what a worker chooses by certified rows of stored tables: of those of
/// the content, as an edition has them, and of the plan's own, which pinned clients have.
pub fn plans()
    ensures { PlansAreByPrices }
{
    catalogue::histories::validity();
    quotes::laws::rows();
    par_tables::laws::tracks();
    crate::laws::graphs();
    crate::laws::plans();
}

// rule: Restart
/// States that a service which starts from a dump replies as the one that was dumped.
///
/// Each dump is read as a profile, of which `make_service` makes the service of one batch. The batch is accepted and
/// makes the content that was dumped, and the mirrors are those that were dumped, with their budgets at the dump: what the
/// operator's calls made of them, none below the one that the service began with. Both services then reply to each
/// request, at each time, with the same bytes, if their mirrors grant the same. In the events: edition 1 of the
/// service that opens has the content of the last edition that was dumped, a job that enters either renders the same
/// replies, and each mirror has the same budget. The totals of the mirrors begin at 0 again.
pub fn restart()
    ensures raises { OperatorsOnlyRaise }
    ensures dumps { DumpsAreProfiles }
    ensures replies { RestartsKeepReplies }
    ensures opens { ServicesOpenAgain }
{
    crate::laws::plans();
}

/// States what the contracts of `Edition::next`, `Press::publish`, `Book::grant`, `Book::raise`, `Budgets::raise`,
/// `replies::reply_to`, a worker's desk and the operator's desk say by events and helpers of them.
///
/// The helpers say what is published, whether a book has room, which book it is after a grant or a raise, and what the
/// reply of a job is. A raise by a name from the present mirrors is the event `Raise` of that mirror, or none; and each
/// call of the operator's desk, from what is published and the present mirrors, is one event `Publish` or `Raise`, or
/// none. The calls of a worker's desk are lists of events by `worker_calls`; the event `Learn` has no such law.
pub fn ties()
    ensures next { NextIsPublished }
    ensures rejected { RejectedIsNotPublished }
    ensures full { FullIsNotPublished }
    ensures press { PressPublishes }
    ensures room { RoomIsTested }
    ensures grants { GrantsAreBooked }
    ensures rejects { FullBooksReject }
    ensures raises { RaisesAreEvents }
    ensures named { RaisesByNameAreEvents }
    ensures operator { OperatorCallsAreEvents }
    ensures answers { AnswersAreOfPending }
    ensures workers { WorkersReplyByOneHistory }
    ensures scripts { ScriptsArePublished }
{}

// rule: Choice by prices
/// States that each request has certified rows by the content of each history.
pub fn certified()
    ensures { RequestsHaveRows }
{
    catalogue::histories::validity();
    solver::laws::tables();
    crate::laws::graphs();
}

// rule: Events of a call
/// States that each call of a worker's desk is a list of events, if its view enters what is published and each mirror
/// has room for what it granted.
///
/// A look-up enters and drops its job. A request that is replied to enters, plans, asks the mirrors and renders; if
/// memory runs out, it drops its job after some of the asks. Other calls are no event. The events change that worker
/// alone, and the books by what it asked for; it then has sent what it had, and what the call sent.
pub fn worker_calls()
    ensures { WorkerCallsAreEvents }
{
    catalogue::histories::validity();
    quotes::laws::rows();
    crate::laws::graphs();
    crate::laws::plans();
    crate::interleavings::laws::certified();
}

/// States that a mirror rejects a worker that is alone for want of room only.
///
/// It holds if nothing was granted to others, no budget was raised, and each ask is granted by the first mirror with room.
pub fn lone_calls()
    ensures { LoneCallsAreForRoom }
{
    catalogue::histories::validity();
    quotes::laws::rows();
    crate::laws::graphs();
    crate::laws::plans();
    crate::interleavings::laws::certified();
}

// rule: Run of a service
/// States that each run of a service is a run of the machine: there is a list of events after which what the operator
/// left is published, each worker sent the replies of its calls, in order, and no others, and each mirror's total is
/// the one given. If the last mirror rejects bytes, none has room for them, by its first budget and its total.
///
/// The run is given by the calls of each worker's desk and of the operator's desk, each by itself, and by the totals;
/// each worker's view may in the end enter what the operator left. No clause says more of the list. That of the proof
/// has all raises first, and then batch by batch the calls of the workers that entered it.
pub fn runs_are_interleavings()
    ensures { RunsAreInterleavings }
{
    crate::interleavings::laws::worker_calls();
}

/// States that each reply of each worker of a run is that of one published catalogue: of the first batches of the
/// history that the operator left, of some number, by a plan of chains of the least sum and what the mirrors granted
/// for it.
pub fn served_replies()
    ensures { ServedRepliesArePublished }
{
    crate::interleavings::laws::runs_are_interleavings();
    crate::interleavings::laws::every_interleaving();
}

/// Shows small runs, worked by hand: a publish between the plan of one worker and its reply, a dropped job, a publisher
/// that is too late, a budget that ends between two workers, one that is raised, a mirror with room that rejects, and
/// events whose conditions fail.
pub fn runs()
    ensures publish { PublishBetween }
    ensures drop { DropAfterGrant }
    ensures stale { StalePublish }
    ensures ends { BudgetEnds }
    ensures raised { BudgetRaised }
    ensures rejected { RejectedWithRoom }
    ensures failed { FailedConditions }
{}

/// Shows larger runs, worked by hand: a mirror without room and one that grants, two apps in one reply, a differential
/// and then a pinned client, the offer to a pinned client, and a worker that hears of a published batch.
pub fn larger_runs()
    ensures second { SecondMirrorGrants }
    ensures apps { TwoAppsInOneReply }
    ensures differential { DifferentialAndPin }
    ensures pin { PinnedOffer }
    ensures heard { HeardOfABatch }
{}

/// Shows calls and a run of a service, worked by hand as events: two workers and an operator, a rejected ask, a raise,
/// a publish between two replies of one worker, and a look-up. The proceedings of a look-up are of a run. Those whose
/// totals are made up, or whose operator left a batch without a call, are of none.
pub fn served_runs()
    ensures calls { CallsWorked }
    ensures run { RunWorked }
    ensures held { LookedUp }
    ensures rejected { ProceedingsRejected }
{}

/// Shows machines that are wrong in one event each, with the law that each of them breaks.
pub fn wrong_machines()
    ensures replies { PlansAndRepliesBreak }
    ensures requests { RequestsBreak }
    ensures entries { EntriesBreak }
    ensures grants { GrantsBreak }
    ensures publishes { PublishesBreak }
{}
