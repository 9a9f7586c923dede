// A full log read through: how many records and bytes of lines, and a checksum of them. bench/ has a plain program that does the same, and times both.
//
// Standard input is two numbers parted by a space and ended by a newline: the bytes of text in each record, and how often the log is read.
#![tactic(auto)]

ghost use Rattle.std.specs.Prelude.{◌≤◌};

mod tally;

use eventlog::Log;
use kmsg::Reader;
use record::Heading;
use std::io;
use tally::Tally;
use workload::numbers::Numbers;

const TIMES_MOST: u64 = 1000000;

// What is asked for.
#[derive(Clone, Copy)]
struct Asked {
    bytes: usize,
    times: u64,
    ghost fits: { bytes ≤ 960 },
}

fn understand(line: &[u8]) -> Option<Asked> {
    let mut numbers = Numbers::new(line);
    let bytes = numbers.read(b' ', Heading::PAYLOAD as u64)? as usize;
    let times = numbers.read(b'\n', TIMES_MOST)?;
    Some(Asked { bytes, times })
}

// All records of a log, from first to last. The log's numbers and its buffer go apart here and below, since every call of the log takes them so.
fn read_through(log: Log, buffer: &[u8], lent: &mut [u8], tally: &mut Tally) {
    let mut reader = Reader::new(log);
    for _ in 0..filling::RECORDS {
        let given = kmsg::read(reader, log, buffer, lent);
        let Ok(bytes) = given.answer else {
            return;
        };
        tally.add(slices::front(lent, bytes as usize));
        reader = given.reader;
    }
}

fn read_often(log: Log, buffer: &[u8], lent: &mut [u8], times: u64) -> Tally {
    let mut tally = Tally::new();
    for _ in 0..times {
        read_through(log, buffer, lent, &mut tally);
    }
    tally
}

fn run(rt: &impl Print, asked: Asked) -> io::Result<()> {
    let mut text = [0u8; Heading::PAYLOAD];
    workload::text::put_text(&mut text, 0);
    let mut buffer = [0u8; Log::CAPACITY_MOST];
    let log = filling::fill(&mut buffer, &text[..asked.bytes]);
    let mut lent = [0u8; Heading::LINE_MOST];
    rt.println(read_often(log, &buffer, &mut lent, asked.times))
}

// Fixed memory: a part of the buffer is what was read. Other programs' mains look alike: one for all would take what is asked, run and refused as closures, and
// be no plainer.
fn main(rt: HostRuntime) -> io::Result<()> {
    let mut input = [0u8; 64];
    let n = streams::read_full(&mut rt.stdin(), &mut input)?;
    match understand(&input[..n]) {
        Some(asked) => run(&rt, asked),
        None => rt.write_all(b"two numbers are wanted\n"),
    }
}
