ghost use Rattle.std.specs.Prelude.{◌≡◌};
ghost use Rattle.http_wire.specs.Replies.{status_line};

/// The status of a reply.
#[derive(Clone, Copy, Drop)]
pub enum Status {
    /// 200: the reply has what was asked for.
    Success,
    /// 400: the message is malformed.
    BadRequest,
    /// 403: no browser may ask the desk.
    Forbidden,
    /// 404: nothing has this path.
    NotFound,
    /// 405: the path takes another method.
    MethodNotAllowed,
    /// 409: the base is not the current one.
    Conflict,
    /// 411: a POST without a `Content-Length`.
    LengthRequired,
    /// 413: a body of more than `MAX_BODY` bytes.
    ContentTooLarge,
    /// 422: the body is rejected for what it says.
    UnprocessableContent,
    /// 431: no whole head in 16384 bytes.
    FieldsTooLarge,
    /// 500: out of memory, or the service has closed.
    InternalServerError,
    /// 501: a `Transfer-Encoding` field.
    NotImplemented,
    /// 503: the service is ending.
    ServiceUnavailable,
}

impl Status {
    // rule: Status lines
    /// Returns the first line of a reply, with its line end.
    #[tactic(auto, unfolding(crate::specs::Replies::status_line))]
    pub fn line(self) -> &'static str
        ensures { result.now ≡ status_line self }
    {
        match self {
            Status::Success => "HTTP/1.1 200 OK\r\n",
            Status::BadRequest => "HTTP/1.1 400 Bad Request\r\n",
            Status::Forbidden => "HTTP/1.1 403 Forbidden\r\n",
            Status::NotFound => "HTTP/1.1 404 Not Found\r\n",
            Status::MethodNotAllowed => "HTTP/1.1 405 Method Not Allowed\r\n",
            Status::Conflict => "HTTP/1.1 409 Conflict\r\n",
            Status::LengthRequired => "HTTP/1.1 411 Length Required\r\n",
            Status::ContentTooLarge => "HTTP/1.1 413 Content Too Large\r\n",
            Status::UnprocessableContent => "HTTP/1.1 422 Unprocessable Content\r\n",
            Status::FieldsTooLarge => "HTTP/1.1 431 Request Header Fields Too Large\r\n",
            Status::InternalServerError => "HTTP/1.1 500 Internal Server Error\r\n",
            Status::NotImplemented => "HTTP/1.1 501 Not Implemented\r\n",
            Status::ServiceUnavailable => "HTTP/1.1 503 Service Unavailable\r\n",
        }
    }
}
