ghost use Rattle.std.specs.Prelude.{◌≡◌};
ghost use Rattle.http_desks.specs.Pages.{page_fields, page_status};

use http_wire::Status;

/// The type of a page's body, and the status of its reply.
#[derive(Clone, Copy, Drop)]
pub enum PageKind {
    /// Characters.
    Plain,
    /// Characters, from a service that is ending: its status is 503, and that of all others 200.
    Ending,
    /// Metrics as Prometheus reads them.
    Metrics,
    /// HTML without a script, which may fetch nothing.
    Html,
}

impl PageKind {
    // rule: Page of a desk
    /// Returns the status of the reply.
    pub fn status(self) -> Status
        ensures { result ≡ page_status self }
    {
        match self {
            PageKind::Ending => Status::ServiceUnavailable,
            PageKind::Plain | PageKind::Metrics | PageKind::Html => Status::Success,
        }
    }

    // rule: Page of a desk
    /// Returns what is after `Content-Type: ` in the head: the type, and for HTML the field that keeps a browser from
    /// fetching or running anything.
    pub fn fields(self) -> &'static str
        ensures { result.now ≡ page_fields self }
    {
        match self {
            PageKind::Plain | PageKind::Ending => "text/plain; charset=utf-8",
            PageKind::Metrics => "text/plain; version=0.0.4; charset=utf-8",
            PageKind::Html => {
                "text/html; charset=utf-8\r\nContent-Security-Policy: default-src 'none'; style-src 'unsafe-inline'"
            }
        }
    }
}

/// A page that a desk shows.
#[derive(Drop)]
pub struct Page {
    /// The type of its body.
    pub kind: PageKind,
    /// The body.
    pub body: Vec<u8>,
}
