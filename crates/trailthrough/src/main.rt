// A full log saved into a lent buffer, and its image read back: how many bytes and records, and checksums of the last image and of its records. bench/ has a
// plain program that does the same, and times both.
//
// Standard input is four numbers, each ended by a newline: the log's capacity, the bytes of text in each record, how often the log is saved and how often the
// image is read. Once more of each comes at the end, for the checksums.
#![tactic(auto)]

ghost use Rattle.std.specs.Prelude.{◌≤◌};

mod tally;

use eventlog::Log;
use record::Heading;
use savedtrail::{Reader, Told};
use std::io;
use tally::Tally;
use workload::checksum::Sum;
use workload::numbers::Numbers;

const TIMES_MOST: u64 = 4294967295;

// What is asked for: the log's capacity, the bytes of text in each record, how often it is saved, how often read.
#[derive(Clone, Copy)]
struct Asked {
    capacity: usize,
    bytes: usize,
    saves: u64,
    reads: u64,
    ghost log_fits: { capacity ≤ 65536 },
    ghost text_fits: { bytes ≤ 960 },
}

fn understand(input: &[u8]) -> Option<Asked> {
    let mut numbers = Numbers::new(input);
    let capacity = numbers.read(b'\n', Log::CAPACITY_MOST as u64)? as usize;
    let bytes = numbers.read(b'\n', Heading::PAYLOAD as u64)? as usize;
    let saves = numbers.read(b'\n', TIMES_MOST)?;
    let reads = numbers.read(b'\n', TIMES_MOST)?;
    Some(Asked {
        capacity,
        bytes,
        saves,
        reads,
    })
}

// ---- saving

// The bytes of an image; none where the save is refused. The log's numbers and its buffer go apart here and below, since every call of the log takes them so.
fn save_once(log: Log, buffer: &[u8], number: u64, out: &mut [u8]) -> usize {
    savedtrail::save(log, buffer, (number % 4294967296) as u32, out).map_or(
        0,
        |bytes| bytes as usize,
    )
}

// Each time with a save number of its own; how many bytes in all.
fn save_often(log: Log, buffer: &[u8], out: &mut [u8], times: u64) -> u64 {
    let mut bytes: u64 = 0;
    for n in 0..times {
        bytes = bytes.wrapping_add(save_once(log, buffer, n, out) as u64);
    }
    bytes
}

// ---- reading

// All records of an image, from first to last: each one's heading is handed on, and the result buffer.
fn each_record<F: FnMut(Heading, &[u8])>(file: &[u8], res: &mut [u8], mut visit: F)
    requires { F.IsAlwaysCallable visit }
{
    let mut reader = Reader::new();
    for _ in 0..filling::RECORDS {
        let handed = savedtrail::next(reader, file, res);
        let Told::Given(h, _) = handed.told else {
            return;
        };
        visit(h, res);
        reader = handed.reader;
    }
}

fn read_often(file: &[u8], res: &mut [u8], times: u64) -> Tally {
    let mut tally = Tally::default();
    for _ in 0..times {
        each_record(file, res, |h, res| tally.add(h, res));
    }
    tally
}

// The same once, with a sum over all that is handed out.
fn sum_through(file: &[u8], res: &mut [u8]) -> Sum {
    let mut sum = Sum::new();
    each_record(file, res, |h, res| sum = tally::with_record(sum, h, res));
    sum
}

// ---- the whole

fn print_sum(rt: &impl Print, what: &str, sum: Sum) -> io::Result<()> {
    println!(rt; "{what}: {} bytes, checksum {}", sum.bytes, sum.weighed)
}

fn read_back(rt: &impl Print, file: &[u8], reads: u64) -> io::Result<()> {
    let mut result = [0u8; Heading::PAYLOAD];
    rt.println(read_often(file, &mut result, reads))?;
    print_sum(rt, "records", sum_through(file, &mut result))
}

fn save_and_read(
    rt: &impl Print,
    log: Log,
    buffer: &[u8],
    saves: u64,
    reads: u64,
) -> io::Result<()> {
    let mut out = [0u8; Reader::LONGEST];
    println!(rt; "{} bytes saved", save_often(log, buffer, &mut out, saves))?;
    let image = save_once(log, buffer, saves, &mut out);
    let file = slices::front(&out, image);
    print_sum(rt, "image", Sum::new().with(file))?;
    read_back(rt, file, reads)
}

fn run(rt: &impl Print, asked: Asked) -> io::Result<()> {
    let mut text = [0u8; Heading::PAYLOAD];
    workload::text::put_text(&mut text, 0);
    let mut space = [0u8; Log::CAPACITY_MOST];
    let buffer = &mut space[..asked.capacity];
    let log = filling::fill(buffer, &text[..asked.bytes]);
    save_and_read(rt, log, buffer, asked.saves, asked.reads)
}

// Fixed memory: a part of the buffer is what was read. Other programs' mains look alike: one for all would take what is asked, run and refused as closures, and
// be no plainer.
fn main(rt: HostRuntime) -> io::Result<()> {
    let mut input = [0u8; 64];
    let n = streams::read_full(&mut rt.stdin(), &mut input)?;
    match understand(&input[..n]) {
        Some(asked) => run(&rt, asked),
        None => rt.write_all(b"four numbers are wanted, each ended by a newline\n"),
    }
}
