// The command `once`: a reply to the one request that a reader holds.

ghost use Rattle.profiles.specs.Streams.{Streams};
ghost use Rattle.omaha_commands.specs.Once.{Replies, Responds};

use crate::once::answering::answer;
use crate::once::error::AnswerError;
use failures::Failure;
use omaha_arguments::Once;
use profiles::open_service;
use service_desks::Service;
use std::sync::Wait;
use std::thread::Threads;
use streams::{Disk, ReadWhole, WriteWhole};

/// How many bytes a request may have.
const MAX_INPUT: u32 = 262144;

// rule: Maximum of the input
// Reads a request, and writes the reply to it.
fn reply_from<R: AllocGlobal + Threads + Sync + Wait, I: ReadWhole, W: WriteWhole>(
    rt: &R,
    service: Service,
    moment: u64,
    reader: &mut I,
    writer: &mut W,
) -> Result<(), Failure>
    ensures { Replies service moment
        (record { input = I.input reader.old; output = W.output writer.old })
        (record { input = I.input reader.new; output = W.output writer.new }) result }
{
    let input = reader.read_whole(rt.alloc(), MAX_INPUT)?;
    let reply = match answer(rt, rt.alloc(), service, moment, input.as_slice()) {
        Ok(Ok(reply)) => reply,
        Ok(Err(fault)) => return Err(Failure::Request(fault)),
        Err(AnswerError::NoPlace) => return Err(Failure::NoPlace),
        Err(AnswerError::Closed) => return Err(Failure::Closed),
        Err(AnswerError::Memory) => return Err(Failure::Memory),
    };
    match writer.write_whole(reply.as_slice()) {
        Ok(()) => Ok(()),
        Err(_) => Err(Failure::Write),
    }
}

// rule: Response of the program
/// Replies to the request that a reader holds.
///
/// Reads the profile's file, if one is named, then the reader to its end, and writes the reply to
/// the writer, byte for byte. The profile may have 256 MiB and the request 262144 bytes. Fails, in
/// this order, with the file, the profile's fault, its first rejected edit, the reader, no place for a view of the
/// edition, the request's fault, and a view that enters nothing; each time nothing is written. If the writer fails, a
/// first part of the reply is written, and not all of it. The mirrors' budgets count for this one request, from nothing.
pub fn respond<R: Disk + AllocGlobal + Threads + Sync + Wait, I: ReadWhole, W: WriteWhole>(
    rt: &R,
    once: &Once,
    reader: &mut I,
    writer: &mut W,
) -> Result<(), Failure>
    ensures { Responds (R.file_at rt.now) once.now
        (record { input = I.input reader.old; output = W.output writer.old })
        (record { input = I.input reader.new; output = W.output writer.new }) result }
{
    match open_service(rt, &once.profile, 1) {
        Ok(service) => reply_from(rt, service, once.moment, reader, writer),
        Err(failure) => Err(failure),
    }
}
