//! The plan of what is offered to the apps of a request.

use crate::client::Assignment;
use payload_graph::Payload;
use price_cert::Certified;
use values::Items;

/// A payload that was chosen for an app.
#[derive(Clone, Copy)]
pub struct Choice {
    /// The payload.
    pub payload: Payload,
    /// The payload's bytes, which a mirror is asked to grant.
    pub bytes: u64,
}

/// Who asks for each app of a request, and what is chosen for it, both in the request's order.
pub struct Plan {
    /// The clients of the apps; none for an unknown app.
    pub clients: Items<Option<Assignment>>,
    /// The choices for them. Nothing is chosen for an app that is unknown, that wants no update, or whose
    /// client no payload brings to the target.
    pub choices: Items<Option<Choice>>,
    /// The tables by which pinned clients were chosen for, one a track; an edition has those of the others.
    pub tables: Items<Certified>,
}

// Written out, so that no caller proves again how each part is dropped.
impl Drop for Plan {
    fn drop(self) {
        let Plan {
            clients: _,
            choices: _,
            tables: _,
        } = self;
    }
}
