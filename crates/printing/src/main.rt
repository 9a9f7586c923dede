// Numbers, or headers of lines, printed into one buffer over and over; what was printed last is written at the end. bench/ has a plain program that does
// the same, and times both.
//
// Standard input is numbers, each ended by a newline: what is printed (1: numbers, 4: headers of lines), how often, and then the numbers themselves. Those of
// headers go by fours: prefix, sequence number, time in nanoseconds, caller.
#![tactic(auto)]

ghost use Rattle.std.specs.Prelude.{◌≤◌, IfSome, length};

mod header;

use std::io;
use workload::numbers::Numbers;

// All numbers of an input, the first two among them.
const NUMBERS: usize = 8192;

// So many of 20 digits, each with its newline; and one byte more, to see an input that is longer.
const INPUT: usize = NUMBERS * 21 + 1;

const TIMES_MOST: u64 = 100000000;

// More than the longest that can be asked for: numbers of 20 digits.
const PRINTED: usize = 262144;

// What is printed.
#[derive(Clone, Copy, Debug, PartialEq, Eq)]
enum What {
    Numbers,
    Headers,
}

// What is asked for: what is printed, how often, and of which numbers.
#[derive(Clone, Copy)]
struct Asked<'a> {
    what: What,
    times: u64,
    values: &'a [u64],
}

// How many numbers a whole input has, if it is nothing else and there are not too many.
fn read_numbers(s: &[u8], values: &mut [u64]) -> Option<usize>
    ensures { IfSome result (λ n. n ≤ length values.new) }
{
    let mut numbers = Numbers::new(s);
    for (n, value) in values.iter_mut().enumerate() {
        if numbers.rest.is_empty() {
            return Some(n);
        }
        *value = numbers.read(b'\n', u64::MAX)?;
    }
    numbers.rest.is_empty().then_some(values.len())
}

fn understand(numbers: &[u64]) -> Option<Asked<'_>> {
    let [what, times, values @ ..] = numbers else {
        return None;
    };
    if TIMES_MOST < *times {
        return None;
    }
    let what = match *what {
        1 => What::Numbers,
        4 if values.len() % 4 == 0 => What::Headers,
        _ => return None,
    };
    Some(Asked {
        what,
        times: *times,
        values,
    })
}

// One number behind the other; one for which there is no room is left out.
fn print_numbers(values: &[u64], out: &mut [u8]) -> usize {
    let mut at = 0;
    for value in values {
        at = number::print_decimal(*value, out, at).unwrap_or(at);
    }
    at
}

fn print_headers(values: &[u64], out: &mut [u8]) -> usize {
    let mut at = 0;
    let mut rest = values;
    while let [prefix, sequence, time, caller, others @ ..] = rest {
        at = header::header(*prefix, *sequence, *time, *caller, out, at);
        rest = others;
    }
    at
}

// So often, each time from the front; answers where what was printed last ends.
fn print_often<F: Fn(&[u64], &mut [u8]) -> usize>(
    print: F,
    times: u64,
    values: &[u64],
    out: &mut [u8],
) -> usize
    requires { F.IsAlwaysCallable print }
{
    let mut end = 0;
    for _ in 0..times {
        end = print(values, out);
    }
    end
}

fn run(rt: &impl Print, asked: Asked<'_>) -> io::Result<()> {
    let mut out = [0u8; PRINTED];
    let end = match asked.what {
        What::Numbers => print_often(print_numbers, asked.times, asked.values, &mut out),
        What::Headers => print_often(print_headers, asked.times, asked.values, &mut out),
    };
    rt.write_all(slices::front(&out, end))
}

fn refuse(rt: &impl Print) -> io::Result<()> {
    rt.write_all(
        b"wanted: plain decimal numbers, each ended by a newline, 8192 at most: 1 or 4, how often (100000000 at most), those to print, by fours behind a 4\n",
    )
}

// Fixed memory: a part of each buffer is what was read or printed.
fn main(rt: HostRuntime) -> io::Result<()> {
    let mut input = [0u8; INPUT];
    let n = streams::read_full(&mut rt.stdin(), &mut input)?;
    let mut numbers = [0u64; NUMBERS];
    let Some(count) = read_numbers(&input[..n], &mut numbers) else {
        return refuse(&rt);
    };
    match understand(&numbers[..count]) {
        Some(asked) => run(&rt, asked),
        None => refuse(&rt),
    }
}
