ghost use Rattle.std.specs.Prelude.{◌≡◌, ◌<◌};
ghost use Rattle.cohorts.specs.Tracks.{session_bucket};

use sha2::{Digest, Sha256};
use std::marker::Model;

/// The session of a request, which contracts see as its bytes.
///
/// Its bucket takes a SHA-256 of the whole string. It is computed when a client first needs it, and
/// then kept for the clients after.
#[derive(Drop)]
pub struct Session<'a> {
    text: &'a str,
    bucket: Option<u16>,
}

impl<'a> Model for Session<'a> {
    ghost use Rattle.std.specs.Prelude.{List, ℕ};
    ghost use Rattle.cohorts.specs.Tracks.{IsBucketOf};

    ghost Value = { List ℕ };

    ghost view = { λ s. s.text.now };

    ghost invariant = { λ s. IsBucketOf s.text.now s.bucket };
}

// rule: Bucket of a session
// The bucket of a session, by the first four bytes of its SHA-256.
fn hash_session(session: &str) -> u16
    ensures { result ≡ session_bucket session.now }
{
    let digest = Sha256::digest(session.as_bytes());
    let number = u32::from_be_bytes([digest[0], digest[1], digest[2], digest[3]]);
    (number % 1000) as u16
}

impl<'a> Session<'a> {
    /// Makes a session; it does not hash the string.
    pub fn new(text: &'a str) -> Session<'a>
        ensures { result ≡ text.now }
    {
        Session { text, bucket: None }
    }

    /// Borrows the string.
    pub fn as_str(&self) -> &'a str
        ensures { result.now ≡ self.now }
    {
        self.text
    }

    /// Returns the bucket, 0 to 999, and hashes the string if it was not known.
    pub fn bucket(&mut self) -> u16
        ensures value { result ≡ session_bucket self.old }
        ensures small { result < 1000 }
        ensures same { self.new ≡ self.old }
    {
        if let Some(bucket) = self.bucket {
            return bucket;
        }
        let bucket = hash_session(self.text);
        self.bucket = Some(bucket);
        bucket
    }
}
