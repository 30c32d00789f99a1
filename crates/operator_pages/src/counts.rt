ghost use Rattle.std.specs.Prelude.{◌≡◌};
ghost use Rattle.operator_pages.specs.Counts.{count_of, counted, heard, no_counts, word_of};

/// What the operator's own calls came to, since the server started.
///
/// A number stays at 2^64 - 1 once it is reached.
#[derive(Clone, Copy)]
pub struct Counts {
    /// When the server started, in seconds since 1970.
    pub started: u64,
    /// How many scripts were published.
    pub published: u64,
    /// How many records of other servers were adopted by calls that asked for them.
    pub followed: u64,
    /// How many scripts were of another edition than the published one.
    pub stale: u64,
    /// How many scripts were rejected, with status 422.
    pub rejected: u64,
    /// How many calls were malformed, with status 400.
    pub malformed: u64,
    /// How many calls got no reply from any server of the history, with status 503.
    pub unreachable: u64,
    /// How many calls failed, with status 500.
    pub failed: u64,
    /// How many budgets were raised.
    pub raised: u64,
    /// When the history was found to be unreachable, in seconds since 1970, if no call since then found it to reply.
    pub lost: Option<u64>,
}

/// What an operator's call came to.
#[derive(Clone, Copy)]
pub enum Outcome {
    /// The script was published.
    Published,
    /// A record of another server was adopted, as the call asked for.
    Followed,
    /// The script was of another edition than the published one.
    Stale,
    /// The script was rejected, with status 422.
    Rejected,
    /// The call was malformed, with status 400.
    Malformed,
    /// No server of the history replied, with status 503.
    Unreachable,
    /// The call failed, with status 500.
    Failed,
    /// The budget was raised.
    Raised,
}

/// What a call found of the history.
#[derive(Clone, Copy)]
pub enum Reach {
    /// It wasn't asked.
    Unasked,
    /// It replied.
    Replies,
    /// No server of it replied.
    Unreachable,
}

impl Counts {
    /// Begins with no calls, at a time in seconds since 1970.
    pub fn new(started: u64) -> Counts
        ensures { result ≡ no_counts started }
    {
        Counts {
            started,
            published: 0,
            followed: 0,
            stale: 0,
            rejected: 0,
            malformed: 0,
            unreachable: 0,
            failed: 0,
            raised: 0,
            lost: None,
        }
    }

    // rule: Counts of an operator
    /// Counts one more call by what it came to.
    pub fn counted(self, outcome: Outcome) -> Counts
        ensures { result ≡ counted outcome self }
    {
        let mut counts = self;
        match outcome {
            Outcome::Published => counts.published = self.published.saturating_add(1),
            Outcome::Followed => counts.followed = self.followed.saturating_add(1),
            Outcome::Stale => counts.stale = self.stale.saturating_add(1),
            Outcome::Rejected => counts.rejected = self.rejected.saturating_add(1),
            Outcome::Malformed => counts.malformed = self.malformed.saturating_add(1),
            Outcome::Unreachable => counts.unreachable = self.unreachable.saturating_add(1),
            Outcome::Failed => counts.failed = self.failed.saturating_add(1),
            Outcome::Raised => counts.raised = self.raised.saturating_add(1),
        }
        counts
    }

    // rule: Reach of a history
    /// Notes what a call found of the history, at a time in seconds since 1970.
    ///
    /// The history is unreachable from the first call that finds it so until one to which it replies.
    pub fn heard(self, reach: Reach, moment: u64) -> Counts
        ensures { result ≡ heard reach moment self }
    {
        let mut counts = self;
        match reach {
            Reach::Unasked => {}
            Reach::Replies => counts.lost = None,
            Reach::Unreachable => counts.lost = Some(self.lost.unwrap_or(moment)),
        }
        counts
    }
}

/// The word of what a call came to.
pub(crate) fn word_of(outcome: Outcome) -> &'static str
    ensures { result.now ≡ word_of outcome }
{
    match outcome {
        Outcome::Published => "published",
        Outcome::Followed => "followed",
        Outcome::Stale => "stale",
        Outcome::Rejected => "rejected",
        Outcome::Malformed => "malformed",
        Outcome::Unreachable => "unreachable",
        Outcome::Failed => "failed",
        Outcome::Raised => "raised",
    }
}

/// How many calls came to something.
pub(crate) fn count_of(counts: &Counts, outcome: Outcome) -> u64
    ensures { result ≡ count_of counts.now outcome }
{
    match outcome {
        Outcome::Published => counts.published,
        Outcome::Followed => counts.followed,
        Outcome::Stale => counts.stale,
        Outcome::Rejected => counts.rejected,
        Outcome::Malformed => counts.malformed,
        Outcome::Unreachable => counts.unreachable,
        Outcome::Failed => counts.failed,
        Outcome::Raised => counts.raised,
    }
}
