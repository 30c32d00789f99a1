//! Whole requests and replies with their records, as laws of the definitions.
//!
//! Each function does nothing when it runs: its contract is the law.

ghost use Rattle.std.specs.Prelude.{codes};
ghost use Rattle.omaha_json.specs.RequestExamples.{UpdateRequestReads, FullRequestReads, EmptyRequestReads, IsInvalid};
ghost use Rattle.omaha_json.specs.ReplyExamples.{EmptyReplyWrites, EmptyReplyLength, FullReplyWrites, DiffReplyWrites, AcknowledgingReplyWrites};

use crate::fault::RequestFault;

/// Shows the record of a request with an update check.
pub fn update_request_reads()
    ensures { UpdateRequestReads }
{}

/// Shows the record of a request that has all members that are read.
pub fn full_request_reads()
    ensures { FullRequestReads }
{}

/// Shows the record of a request that asks for no app.
pub fn empty_request_reads()
    ensures { EmptyRequestReads }
{}

/// Shows a request with each fault but the fifth, which takes 257 apps.
pub fn faulty_requests_are_rejected()
    ensures not_json { IsInvalid (codes "{") RequestFault.NotJson }
    ensures no_request { IsInvalid (codes "[]") RequestFault.NoRequest }
    ensures bad_protocol { IsInvalid (codes "{\"request\":{\"protocol\":\"3.0\"}}")
        RequestFault.BadProtocol }
    ensures bad_app { IsInvalid (codes "{\"request\":{\"app\":[1],\"protocol\":\"3.1\"}}")
        (RequestFault.BadApp 0) }
{}

/// Shows the bytes of a reply to a request that asks for no app.
pub fn empty_reply_writes()
    ensures text { EmptyReplyWrites }
    ensures length { EmptyReplyLength }
{}

/// Shows the bytes of a reply that offers a full package.
pub fn full_reply_writes()
    ensures { FullReplyWrites }
{}

/// Shows the bytes of a reply that offers a differential beside the full package.
pub fn diff_reply_writes()
    ensures { DiffReplyWrites }
{}

/// Shows the bytes of a reply to a ping, an unknown app and two events.
pub fn acknowledging_reply_writes()
    ensures { AcknowledgingReplyWrites }
{}
