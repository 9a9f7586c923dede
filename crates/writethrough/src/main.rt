// One message from outside written to a log over and over: how many bytes were answered, how many records dropped, the log's numbers afterwards, and the
// oldest line that it holds. bench/ has a plain program that does the same, and times both.
//
// Standard input is two numbers parted by a space and ended by a newline, the log's capacity and how often the message is written; then the message.
#![tactic(auto)]

ghost use Rattle.std.specs.Prelude.{◌≤◌};

use eventlog::Log;
use kmsg::Reader;
use record::Heading;
use std::{fmt, io};
use workload::numbers::Numbers;

const INPUT: usize = 1024;

const TIMES_MOST: u64 = 100000000;

// Who writes.
const CALLER: u32 = 4711;

// What is asked for: the log's capacity, what is written to it, and how often.
#[derive(Clone, Copy)]
struct Asked<'a> {
    capacity: usize,
    times: u64,
    message: &'a [u8],
    ghost fits: { capacity ≤ 65536 },
}

// What the writes told: the bytes answered and the records dropped, whose counts wrap, and the log's numbers after the last. No `Written`: that has one answer.
#[derive(Clone, Copy)]
struct Told {
    answered: u64,
    dropped: u64,
    log: Log,
}

impl fmt::Display for Told {
    fn fmt<W: fmt::Write>(&self, f: &mut fmt::Formatter<W>) -> fmt::Result {
        let Log {
            start,
            used,
            next,
            ..
        } = self.log;
        write!(
            f,
            "{} bytes answered, {} records dropped; start {}, used {used}, next {}",
            self.answered, self.dropped, start.0, next.0
        )
    }
}

fn understand(input: &[u8]) -> Option<Asked<'_>> {
    let mut numbers = Numbers::new(input);
    let capacity = numbers.read(b' ', Log::CAPACITY_MOST as u64)? as usize;
    let times = numbers.read(b'\n', TIMES_MOST)?;
    Some(Asked {
        capacity,
        times,
        message: numbers.rest,
    })
}

fn write_often(buffer: &mut [u8], message: &[u8], times: u64) -> Told {
    let mut told = Told {
        answered: 0,
        dropped: 0,
        log: Log::new(),
    };
    for n in 0..times {
        let written = writes::write_outside(told.log, buffer, n, message, CALLER);
        // No `map_or`: a call more for each write, which took 16% more where a write is refused.
        if let Ok(bytes) = written.answer {
            told.answered = told.answered.wrapping_add(u64::from(bytes));
        }
        told.dropped = told.dropped.wrapping_add(written.dropped);
        told.log = written.log;
    }
    told
}

// The oldest line that is held, as a reader gets it. The log's numbers and its buffer go apart, since every call of the log takes them so.
fn print_oldest(rt: &impl Print, log: Log, buffer: &[u8], lent: &mut [u8]) -> io::Result<()> {
    let given = kmsg::read(Reader::new(log), log, buffer, lent);
    let line = match given.answer {
        Ok(bytes) => slices::front(lent, bytes as usize),
        Err(_) => b"no record is held\n",
    };
    rt.write_all(line)
}

fn run(rt: &impl Print, asked: Asked<'_>) -> io::Result<()> {
    let mut space = [0u8; Log::CAPACITY_MOST];
    let buffer = &mut space[..asked.capacity];
    let told = write_often(buffer, asked.message, asked.times);
    rt.println(told)?;
    let mut lent = [0u8; Heading::LINE_MOST];
    print_oldest(rt, told.log, buffer, &mut lent)
}

// Fixed memory: a part of the buffer is what was read.
fn main(rt: HostRuntime) -> io::Result<()> {
    let mut input = [0u8; INPUT];
    let n = streams::read_full(&mut rt.stdin(), &mut input)?;
    match understand(&input[..n]) {
        Some(asked) => run(&rt, asked),
        None => rt.write_all(b"two numbers are wanted\n"),
    }
}
