// Reads and writes of a slot's socket, and how the book records them.

ghost use Rattle.std.specs.Prelude.{◌≡◌, ◌<◌, length, vec_len};
ghost use Rattle.http_ports.specs.Ports.{Reads, Writes};
ghost use Rattle.http_ports.specs.Traffic.{IsOpen};
ghost use Rattle.http_ports.specs.Books.{accepted_in, slots_after};
ghost use Rattle.systems.specs.Polled.{IsReceived, IsSent};

use http_ports::{Book, Change, Last, Received, Sent};
use mio::net::TcpStream;
use std::io::{ErrorKind, Read, Write};
use streams::Trace;

// How often a call is tried that a signal interrupts.
const TRIES: u32 = 16;

// What a read of a slot's socket gives.
pub(crate) fn read_stream(stream: Option<&TcpStream>, into: &mut [u8]) -> Received
    requires { 0 < length into.old }
    ensures { IsReceived result into.new }
{
    let Some(mut stream) = stream else {
        return Received::Failure;
    };
    for _ in 0..TRIES {
        match stream.read(into) {
            Ok(0) => return Received::End,
            Ok(count) => return Received::Bytes(count),
            Err(error) if error.kind() == ErrorKind::WouldBlock => return Received::Nothing,
            Err(error) if error.kind() == ErrorKind::Interrupted => {}
            Err(_) => return Received::Failure,
        }
    }
    Received::Failure
}

// Records what a read of a slot's socket gave.
pub(crate) fn note_read(book: &mut Book<TcpStream>, slot: usize, into: &[u8], received: Received)
    requires live { IsOpen (slots_after book.old.moves slot) }
    requires received { IsReceived received into.now }
    ensures reads { Reads slot received into.now (slots_after book.old.moves) (slots_after book.new.moves) }
    ensures accepted { accepted_in book.new.moves ≡ accepted_in book.old.moves }
    ensures capacity { vec_len book.new.places ≡ vec_len book.old.places }
{
    match received {
        Received::Bytes(count) => {
            book.change(slot, Change::Received(Trace::of(&into[..count])), false);
        }
        Received::Nothing => book.change(slot, Change::Marked(Last::WaitsToRead), true),
        Received::End => book.change(slot, Change::Marked(Last::InputEnded), false),
        Received::Failure => book.change(slot, Change::Marked(Last::ReadFailed), false),
    }
}

// What a write to a slot's socket takes.
pub(crate) fn write_stream(stream: Option<&TcpStream>, bytes: &[u8]) -> Sent
    ensures { IsSent result bytes.now }
{
    let Some(mut stream) = stream else {
        return Sent::Failure;
    };
    for _ in 0..TRIES {
        match stream.write(bytes) {
            Ok(0) => return Sent::Failure,
            Ok(count) => return Sent::Bytes(count),
            Err(error) if error.kind() == ErrorKind::WouldBlock => return Sent::Nothing,
            Err(error) if error.kind() == ErrorKind::Interrupted => {}
            Err(_) => return Sent::Failure,
        }
    }
    Sent::Failure
}

// Records how many bytes a write to a slot's socket took.
pub(crate) fn note_write(book: &mut Book<TcpStream>, slot: usize, bytes: &[u8], sent: Sent)
    requires live { IsOpen (slots_after book.old.moves slot) }
    requires sent { IsSent sent bytes.now }
    ensures writes { Writes slot sent bytes.now (slots_after book.old.moves) (slots_after book.new.moves) }
    ensures accepted { accepted_in book.new.moves ≡ accepted_in book.old.moves }
    ensures capacity { vec_len book.new.places ≡ vec_len book.old.places }
{
    match sent {
        Sent::Bytes(count) => {
            book.change(slot, Change::Sent(Trace::of(&bytes[..count])), false);
        }
        Sent::Nothing => book.change(slot, Change::Marked(Last::WaitsToWrite), true),
        Sent::Failure => book.change(slot, Change::Marked(Last::WriteFailed), false),
    }
}
