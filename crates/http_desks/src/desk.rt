ghost use Rattle.std.specs.Prelude.{◌≡◌, ℕ, List};
ghost use Rattle.http_desks.specs.Calls.{Call, Asks, Looks, Shows, answer_in};
ghost use Rattle.http_desks.specs.Pages.{page_in};
ghost use Rattle.http_desks.specs.Replies.{status_of};

use crate::page::Page;
use http_wire::Status;
use values::Declared;

/// The status that a desk gives its reply.
#[derive(Clone, Copy, Drop)]
pub enum DeskStatus {
    /// 200: what was asked for.
    Success,
    /// 400: the body is malformed.
    BadRequest,
    /// 409: the base is not the current one.
    Conflict,
    /// 422: the body is rejected for what it says.
    UnprocessableContent,
    /// 503: what the call needs can't be reached now.
    ServiceUnavailable,
}

impl DeskStatus {
    /// Returns the status of the reply.
    pub fn status(self) -> Status
        ensures { result ≡ status_of self }
    {
        match self {
            DeskStatus::Success => Status::Success,
            DeskStatus::BadRequest => Status::BadRequest,
            DeskStatus::Conflict => Status::Conflict,
            DeskStatus::UnprocessableContent => Status::UnprocessableContent,
            DeskStatus::ServiceUnavailable => Status::ServiceUnavailable,
        }
    }
}

/// The reply of a desk.
#[derive(Drop)]
pub struct Answer {
    /// How the desk took the message.
    pub status: DeskStatus,
    /// The body of the reply, which may be empty.
    pub body: Vec<u8>,
}

/// Why a desk has no reply.
#[derive(Clone, Copy, Drop)]
pub enum Off {
    /// Out of memory.
    Memory,
    /// The service has closed.
    Closed,
}

/// Replies to the messages to one path, knows the packages, and may show pages at other paths.
pub trait Desk {
    ghost path: { Self → List ℕ };

    ghost content_type: { Self → List ℕ };

    // the call leads from the first state to the second
    ghost steps: { Self → Call → Self → Type 0 };

    /// Returns the path.
    fn path(&self) -> &str
        ensures { result.now ≡ path self.now };

    /// Returns the type of the replies' bodies.
    fn content_type(&self) -> &str
        ensures { result.now ≡ content_type self.now };

    /// Returns the reply to a message with this body, at this timestamp.
    fn answer(&mut self, body: &[u8], moment: u64) -> Result<Answer, Off>
        ensures steps { steps self.old (Asks body.now moment (answer_in result)) self.new }
        ensures path { path self.new ≡ path self.old }
        ensures content_type { content_type self.new ≡ content_type self.old };

    /// Returns what is declared of a package, or `None` if there is none of this name.
    fn package(&mut self, name: &[u8]) -> Option<Declared>
        ensures steps { steps self.old (Looks name.now result) self.new }
        ensures path { path self.new ≡ path self.old }
        ensures content_type { content_type self.new ≡ content_type self.old };

    /// Returns the page at a path, or `None` if there is none.
    fn page(&mut self, at: &[u8]) -> Result<Option<Page>, Off>
        ensures steps { steps self.old (Shows at.now (page_in result)) self.new }
        ensures path { path self.new ≡ path self.old }
        ensures content_type { content_type self.new ≡ content_type self.old };
}
