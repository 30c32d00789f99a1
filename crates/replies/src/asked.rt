//! A request, with the time at which it came.

use omaha_json::Request;

/// A request, with the time at which it came, in seconds since 1 January 1970 UTC.
#[derive(Clone, Copy)]
pub struct Asked<'a> {
    /// The request.
    pub request: &'a Request,
    /// The time.
    pub moment: u64,
}
