// Messages handed to a joiner over and over: how many texts and bytes were given, how many messages were refused, and two checksums. bench/ has a plain program
// that does the same, and times both.
//
// Standard input is three numbers parted by single spaces and ended by a newline: the bytes of each message; the place, in a message, behind the digit of its
// number that is raised by one after each call (0: none is); how often a message is handed over. Then the messages, which are taken in turn.
#![tactic(auto)]

ghost use Rattle.std.specs.Prelude.{◌≤◌, IfSome, length};

mod feed;
mod tally;

use feed::Feed;
use joiner::Joiner;
use std::io;
use tally::Tally;
use workload::checksum::checksum;
use workload::numbers::Numbers;

// The numbers, and some messages: the longest of the bench has less than 4,096 bytes.
const INPUT: usize = 16384;

const TIMES_MOST: u64 = 4294967295;

// What is asked for: a message's bytes, the place behind the digit to be raised, how often; and how many bytes the messages have.
#[derive(Clone, Copy)]
struct Asked {
    size: usize,
    digit: usize,
    times: u64,
    left: usize,
}

fn understand(input: &[u8]) -> Option<Asked>
    ensures { IfSome result (λ asked. asked.left ≤ length input.now) }
{
    let mut numbers = Numbers::new(input);
    let size = numbers.read(b' ', INPUT as u64)? as usize;
    let digit = numbers.read(b' ', INPUT as u64)? as usize;
    let times = numbers.read(b'\n', TIMES_MOST)?;
    Some(Asked {
        size,
        digit,
        times,
        left: numbers.rest.len(),
    })
}

// One message after the other handed over, and what each gave counted. The joiner is lent its three buffers apart, so they stand apart here.
fn join_often(
    feed: &mut Feed<'_>,
    times: u64,
    texts: &mut [u8],
    first: &mut [u8],
    second: &mut [u8],
) -> Tally {
    let mut tally = Tally::default();
    let mut joiner = Joiner::new();
    for _ in 0..times {
        let told = joiner::join(joiner, texts, feed.message(), first, second);
        tally.add(told.answer, first, second);
        joiner = told.joiner;
        feed.pass();
    }
    tally
}

fn run(rt: &impl Print, asked: Asked, messages: &mut [u8]) -> io::Result<()> {
    let mut feed = Feed::new(messages, asked.size, asked.digit);
    let mut texts = [0u8; Joiner::BUFFER];
    let mut first = [0u8; Joiner::TEXT];
    let mut second = [0u8; Joiner::TEXT];
    rt.println(join_often(&mut feed, asked.times, &mut texts, &mut first, &mut second))?;
    let (texts, first, second) = (checksum(&texts), checksum(&first), checksum(&second));
    println!(rt; "{texts} of the open texts' buffer, {first} and {second} of the results")
}

// Fixed memory: a part of the buffer is what was read.
fn main(rt: HostRuntime) -> io::Result<()> {
    let mut input = [0u8; INPUT];
    let n = streams::read_full(&mut rt.stdin(), &mut input)?;
    match understand(&input[..n]) {
        Some(asked) => run(&rt, asked, &mut input[n - asked.left..n]),
        None => rt.write_all(b"three numbers are wanted\n"),
    }
}
