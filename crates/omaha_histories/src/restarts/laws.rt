//! What a restart finds, for all records and all calls.

ghost use Rattle.omaha_histories.specs.Laws.{CrashesLoseNothing, PublishedEditionsStay, RecordsLeadToOne, RestartsFindWhatWasPublished, ServersAgree};

/// States that records lead to one history and one list of mirrors at most.
pub fn records()
    ensures { RecordsLeadToOne }
{}

// rule: Servers of one history
/// States that of two servers of one history, one published the first batches that the other one published.
pub fn servers()
    ensures { ServersAgree }
{}

/// States that the records of an operator's desk lead to what it published, and to the budgets that it raised.
pub fn restarts()
    ensures { RestartsFindWhatWasPublished }
{}

/// States that what an operator's desk published stays: each later edition, also one that is due, has all its batches.
pub fn editions()
    ensures { PublishedEditionsStay }
{}

// rule: Restart after a crash
/// States that a crash within a call of the operator's desk loses nothing that an earlier call published or raised, if it
/// leaves the records that the desk knew before the call or after it.
///
/// It says nothing after an append in doubt: then the disk may have one record more than the desk knows. That `append` of
/// `history` leaves one of the two is a clause of that crate. That this holds at any time within the call is trusted.
pub fn crashes()
    ensures { CrashesLoseNothing }
{}
