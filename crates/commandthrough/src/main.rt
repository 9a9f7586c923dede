// One command of syslog(2) asked of a full log over and over: what was answered in all, command 2's position after the last one, and a checksum of the lent
// buffer. bench/ has a plain program that does the same, and times both.
//
// Standard input is six numbers parted by single spaces and ended by a newline: the bytes of text in each record, after how many of them each is a newline (0:
// none is), the log's capacity; the command's type, its len, and how often it is asked.
#![tactic(auto)]

ghost use Rattle.std.specs.Prelude.{◌≤◌};

use eventlog::Log;
use record::Heading;
use std::{fmt, io};
use syslog::Asked;
use workload::numbers::Numbers;

const TYPE_MOST: u64 = 10;

const TIMES_MOST: u64 = 4294967295;

// More than the forms of any full log: 63,392 newlines in 67 records have 444,213 bytes, with a prefix of four digits.
const LENT: usize = 460000;

// How the log is filled: the bytes of text, after how many a newline, the capacity.
#[derive(Clone, Copy)]
struct Records {
    bytes: usize,
    every: usize,
    capacity: usize,
    ghost text_fits: { bytes ≤ 960 },
    ghost log_fits: { capacity ≤ 65536 },
}

// What is asked for: how the log is filled, and what is asked of it, how often.
#[derive(Clone, Copy)]
struct Wanted {
    records: Records,
    asked: Asked,
    times: u64,
}

// What the commands told: the sum of their answers, which wraps, and the log's numbers after the last.
#[derive(Clone, Copy)]
struct Told {
    answered: u64,
    log: Log,
}

impl fmt::Display for Told {
    fn fmt<W: fmt::Write>(&self, f: &mut fmt::Formatter<W>) -> fmt::Result {
        let Log {
            position,
            offset,
            ..
        } = self.log;
        write!(
            f,
            "{} answered; position {}, offset {offset}",
            self.answered, position.0
        )
    }
}

// ---- what is asked for

fn read_records(numbers: &mut Numbers<'_>) -> Option<Records> {
    let bytes = numbers.read(b' ', Heading::PAYLOAD as u64)? as usize;
    let every = numbers.read(b' ', Heading::PAYLOAD as u64)? as usize;
    let capacity = numbers.read(b' ', Log::CAPACITY_MOST as u64)? as usize;
    Some(Records {
        bytes,
        every,
        capacity,
    })
}

fn read_command(numbers: &mut Numbers<'_>) -> Option<Asked> {
    let command = i32::try_from(numbers.read(b' ', TYPE_MOST)?).ok()?;
    let len = i32::try_from(numbers.read(b' ', LENT as u64)?).ok()?;
    Some(Asked {
        command,
        len,
        privilege: true,
        restriction: false,
    })
}

fn understand(line: &[u8]) -> Option<Wanted> {
    let mut numbers = Numbers::new(line);
    let records = read_records(&mut numbers)?;
    let asked = read_command(&mut numbers)?;
    let times = numbers.read(b'\n', TIMES_MOST)?;
    Some(Wanted {
        records,
        asked,
        times,
    })
}

// ---- the commands

// Each time of the same log, so that each does the same work. A command that is refused counts nothing. The log's numbers and its buffer go apart, since every
// call of the log takes them so.
fn ask_often(log: Log, buffer: &[u8], asked: Asked, lent: &mut [u8], times: u64) -> Told {
    let mut told = Told { answered: 0, log };
    for _ in 0..times {
        let commanded = syslog::command(log, buffer, asked, lent);
        if let Ok(count) = commanded.answer {
            told.answered = told.answered.wrapping_add(u64::from(count));
        }
        told.log = commanded.log;
    }
    told
}

// ---- the whole

fn ask(rt: &impl Print, log: Log, buffer: &[u8], asked: Asked, times: u64) -> io::Result<()> {
    let mut lent = [0u8; LENT];
    let told = ask_often(log, buffer, asked, &mut lent, times);
    println!(rt; "{told}; checksum {}", workload::checksum::checksum(&lent))
}

fn run(rt: &impl Print, wanted: Wanted) -> io::Result<()> {
    let records = wanted.records;
    let mut text = [0u8; Heading::PAYLOAD];
    workload::text::put_text(&mut text, records.every);
    let mut space = [0u8; Log::CAPACITY_MOST];
    let buffer = &mut space[..records.capacity];
    let log = filling::fill(buffer, &text[..records.bytes]);
    ask(rt, log, buffer, wanted.asked, wanted.times)
}

// Fixed memory: a part of the buffer is what was read. Other programs' mains look alike: one for all would take what is asked, run and refused as closures, and
// be no plainer.
fn main(rt: HostRuntime) -> io::Result<()> {
    let mut input = [0u8; 64];
    let n = streams::read_full(&mut rt.stdin(), &mut input)?;
    match understand(&input[..n]) {
        Some(wanted) => run(&rt, wanted),
        None => rt.write_all(b"six numbers are wanted\n"),
    }
}
