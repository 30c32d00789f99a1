ghost use Rattle.std.specs.Prelude.{◌≡◌};
ghost use Rattle.http_desks.specs.Uses.{is_get, method_of};

/// The method of a message, as far as it matters.
#[derive(Clone, Copy, Drop)]
pub enum Method {
    /// GET, for packages and pages.
    Get,
    /// GET of a message for another host, which gets packages, and no page.
    ForeignGet,
    /// POST, for a desk.
    Post,
    /// POST of a browser, for a desk that browsers may ask.
    BrowserPost,
    /// Any other.
    Other,
}

impl Method {
    /// Returns the method of this name, by whether a browser sends the message, and whether it is for another host; case
    /// matters.
    pub fn of(name: &[u8], is_browsers: bool, is_for_another: bool) -> Method
        ensures { result ≡ method_of name.now is_browsers is_for_another }
    {
        if name == b"GET".as_slice() {
            if is_for_another {
                Method::ForeignGet
            } else {
                Method::Get
            }
        } else if name == b"POST".as_slice() {
            if is_browsers {
                Method::BrowserPost
            } else {
                Method::Post
            }
        } else {
            Method::Other
        }
    }

    /// Whether it is GET.
    pub fn is_get(self) -> bool
        ensures { result ≡ is_get self }
    {
        match self {
            Method::Get | Method::ForeignGet => true,
            Method::Post | Method::BrowserPost | Method::Other => false,
        }
    }
}
