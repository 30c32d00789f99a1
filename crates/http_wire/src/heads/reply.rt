ghost use Rattle.std.specs.Prelude.{◌≡◌};
ghost use Rattle.http_wire.specs.Replies.{allow_line, last_lines};

use crate::heads::status::Status;

/// The only method that a path takes.
#[derive(Clone, Copy, Drop)]
pub enum Allow {
    /// POST, for requests.
    Post,
    /// GET, for packages.
    Get,
}

/// What the head of a reply says.
#[derive(Clone, Copy, Drop)]
pub struct ReplyHead<'a> {
    /// The status, which the first line has.
    pub status: Status,
    /// The type of the body; empty if it has none.
    pub kind: &'a str,
    /// The method that an `Allow` field names, if there is one.
    pub allow: Option<Allow>,
    /// The length of the body.
    pub size: usize,
    /// Whether the connection ends after the reply.
    pub closes: bool,
}

/// Returns the field that names the method which a path takes, or nothing.
#[tactic(auto, unfolding(crate::specs::Replies::allow_line))]
pub fn allow_field(allow: Option<Allow>) -> &'static str
    ensures { result.now ≡ allow_line allow }
{
    match allow {
        None => "",
        Some(Allow::Post) => "Allow: POST\r\n",
        Some(Allow::Get) => "Allow: GET\r\n",
    }
}

/// Returns the end of a reply's head: the empty line, after `Connection: close` if it closes.
#[tactic(auto, unfolding(crate::specs::Replies::last_lines))]
pub fn last_field(closes: bool) -> &'static str
    ensures { result.now ≡ last_lines closes }
{
    if closes {
        "Connection: close\r\n\r\n"
    } else {
        "\r\n"
    }
}
