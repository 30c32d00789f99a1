// What was posted, and what came of it.

ghost use Rattle.std.specs.Prelude.{◌≡◌};
ghost use Rattle.etcd_records.specs.Exchanges.{exchange_of, outcome_of};

use crate::gateway::{GatewayFault, Response};
use streams::Trace;

/// What came of a request, of which contracts alone see the bytes.
#[derive(Drop)]
pub enum Outcome {
    /// A server responded, with this status and this body.
    Responded(u16, Trace<u8>),
    /// No whole response came.
    Missed(GatewayFault),
}

impl Outcome {
    /// Notes what came of a request.
    pub fn of(came: &Result<Response, GatewayFault>) -> Outcome
        ensures { result ≡ outcome_of came.now }
    {
        match came {
            Ok(response) => Outcome::Responded(
                response.status,
                Trace::of(response.body.as_slice()),
            ),
            Err(fault) => Outcome::Missed(*fault),
        }
    }
}

/// A request with the path and the body that were posted, and what came of it. Contracts alone see the bytes.
pub struct Exchange {
    path: Trace<u8>,
    body: Trace<u8>,
    outcome: Outcome,
}

// Written out, so that no caller proves again how each part is dropped.
impl Drop for Exchange {
    fn drop(self) {
        let Exchange {
            path: _,
            body: _,
            outcome: _,
        } = self;
    }
}

impl Exchange {
    /// Notes a request and what came of it. It takes no memory.
    pub fn of(path: &str, body: &[u8], came: &Result<Response, GatewayFault>) -> Exchange
        ensures { result ≡ exchange_of path.now body.now came.now }
    {
        Exchange {
            path: Trace::of(path.as_bytes()),
            body: Trace::of(body),
            outcome: Outcome::of(came),
        }
    }
}
