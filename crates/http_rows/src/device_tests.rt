ghost use Rattle.std.specs.Prelude.{◌≡◌, ◌<◌};

use crate::lines::columns;
use crate::scripted::Scripted;
use http_desks::Clock;
use http_devices::{Reading, SystemClock, Writing};
use http_wire::{Sink, Source};
use std::io::ErrorKind;
use std::marker::Brand;
use std::sync::ledger::{Blank, Ledger};
use std::time::Duration;
use std::{io, time};

// What three reads of four bytes come to.
fn read_thrice<L: Ledger>(left: &[u8], blank: Blank) -> [Option<usize>; 3]
    requires name { blank.name ≡ L.name }
    requires parts { blank.parts ≡ L.parts }
    requires some { 0 < blank.parts }
{
    let mut source = Reading::<Scripted<'_>, L>::new(Scripted { left }, blank);
    let first = source.read(&mut [0; 4]).ok();
    let second = source.read(&mut [0; 4]).ok();
    [first, second, source.read(&mut [0; 4]).ok()]
}

// What three writes of four bytes come to.
fn write_thrice<L: Ledger>(left: &[u8], blank: Blank) -> [Option<usize>; 3]
    requires name { blank.name ≡ L.name }
    requires parts { blank.parts ≡ L.parts }
    requires some { 0 < blank.parts }
{
    let mut sink = Writing::<Scripted<'_>, L>::new(Scripted { left }, blank);
    let first = sink.write(&[0; 4]).ok();
    let second = sink.write(&[0; 4]).ok();
    [first, second, sink.write(&[0; 4]).ok()]
}

// Whether calls come to what the words say: a count, or `failed`.
fn are(outcomes: [Option<usize>; 3], words: &str) -> bool {
    let mut left = words.split(' ');
    for outcome in outcomes {
        let word = left.next().unwrap_or("");
        if word.parse().ok() != outcome {
            return false;
        }
    }
    true
}

// A row is a script, and what three reads and three writes come to.
const ROWS: &str = "\
142|1 4 2|1 4 2
i1i2i3|1 2 3|1 2 3
iiii9i1|4 1 0|4 1 failed
1f2|1 failed 2|1 failed 2
1if2|1 failed 2|1 failed 2
01|0 1 0|failed 1 failed";

// Whether the calls of a row come to what it says.
fn comes_to_its_ends(row: &str) -> bool {
    let [script, read, written, _, _] = columns(row, '|');
    let (blank, other) = (Blank::new(1), Blank::new(1));
    let is_read = are(read_thrice::<Brand>(script.as_bytes(), blank), read);
    is_read && are(write_thrice::<Brand>(script.as_bytes(), other), written)
}

#[test]
fn tries_an_interrupted_call_again(rt: HostRuntime) {
    for row in ROWS.lines() {
        assert!(rt; comes_to_its_ends(row), "{row}");
    }
}

// A system whose clock is so many milliseconds after 1970, or can't be read.
#[derive(Drop)]
struct Timed {
    milliseconds: Option<u64>,
}

impl time::Clock for Timed {
    fn monotonic(&self) -> io::Result<Duration> {
        Err(io::Error::from(ErrorKind::Unsupported))
    }

    fn since_1970(&self) -> io::Result<Duration> {
        match self.milliseconds {
            Some(milliseconds) => Ok(Duration::from_millis(milliseconds)),
            None => Err(io::Error::from(ErrorKind::Unsupported)),
        }
    }
}

#[test]
fn the_clock_gives_the_seconds_of_the_system(rt: HostRuntime) {
    let rows = [
        (Some(1_795_512_605_999), 1_795_512_605),
        (Some(1_795_512_606_000), 1_795_512_606),
        (Some(999), 0),
        (None, 0),
    ];
    for (milliseconds, seconds) in rows {
        let system = Timed { milliseconds };
        assert!(rt; SystemClock::new(&system).now() == seconds, "{seconds}");
    }
}
