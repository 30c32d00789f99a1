// Times in the log.

use httpdate::HttpDate;
use std::{fmt, str};

/// A second, which prints as `24/Nov/2026:09:30:00 +0000`.
#[derive(Clone, Copy)]
pub(crate) struct Time {
    /// The second since 1970.
    pub(crate) seconds: u64,
}

// A part of a date, which is ASCII.
fn part(bytes: &[u8]) -> &str {
    match str::from_utf8(bytes) {
        Ok(part) => part,
        Err(_) => "-",
    }
}

impl fmt::Display for Time {
    fn fmt<W: fmt::Write>(&self, f: &mut fmt::Formatter<W>) -> fmt::Result {
        let Ok(date) = HttpDate::from_unix_secs(self.seconds) else {
            return f.write_str("-");
        };
        // as `Tue, 24 Nov 2026 09:30:00 GMT`
        let date = date.to_bytes();
        let (day, month) = (part(&date[5..7]), part(&date[8..11]));
        let (year, time) = (part(&date[12..16]), part(&date[17..25]));
        write!(f, "{day}/{month}/{year}:{time} +0000")
    }
}
