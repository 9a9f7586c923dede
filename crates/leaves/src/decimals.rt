// Plain decimal: document 01's numbers, and those at the edge of 64 bits.
ghost use Rattle.std.specs.Prelude.{◌^◌, ◌≤◌, ◌<◌};

use number::DecimalError;
use std::io;

// A number as it is put into a buffer, which ends a line.
fn end_with(rt: &impl Print, value: u64, out: &mut [u8]) -> io::Result<()> {
    match number::print_decimal(value, out, 0) {
        Some(n) => {
            rt.write_all(slices::front(out, n))?;
            println!(rt)
        }
        None => println!(rt; "no room"),
    }
}

// A number as it is printed.
fn print(rt: &impl Print, value: u64) -> io::Result<()> {
    print!(rt; "decimal ")?;
    end_with(rt, value, &mut [0; 20])
}

// A power of ten and its neighbours: where the number of digits changes.
fn print_around(rt: &impl Print, power: u64) -> io::Result<()>
    requires { (0 < power) × (power ≤ 10 ^ 19) }
{
    print(rt, power - 1)?;
    print(rt, power)?;
    print(rt, power + 1)
}

// All the powers of ten that fit 64 bits.
fn print_powers(rt: &impl Print) -> io::Result<()> {
    for zeros in 0..20 {
        print_around(rt, u64::pow(10, zeros))?;
    }
    Ok(())
}

// The largest number with one byte too few.
fn print_short(rt: &impl Print) -> io::Result<()> {
    print!(rt; "decimal in 19 bytes ")?;
    end_with(rt, u64::MAX, &mut [0; 19])
}

// T10: a time in ns as microseconds, rounded down.
fn microseconds(rt: &impl Print, time: u64) -> io::Result<()> {
    print!(rt; "T10 {time} ns ")?;
    end_with(rt, time / 1000, &mut [0; 20])
}

// What a word says, up to 2^64 - 1.
fn read(rt: &impl Print, word: &str) -> io::Result<()> {
    print!(rt; "read {word}: ")?;
    match number::read_decimal(word.as_bytes(), u64::MAX) {
        Ok(n) => println!(rt; "{n}"),
        Err(DecimalError::NotPlain) => println!(rt; "not plain"),
        Err(DecimalError::Above) => println!(rt; "above"),
    }
}

#[rattlefmt::skip]
const NUMBERS: [u64; 8] = [0, 9, 10, 999, 4294967296, 9999999999999999999, 10000000000000000000, u64::MAX];

// Those that are read, and those that aren't.
#[rattlefmt::skip]
const WORDS: [&str; 18] = [
    "0", "9", "10", "999", "4294967296", "9999999999999999999", "18446744073709551615",
    "", "00", "01", "+1", "1 ", "18446744073709551616", "18446744073709551620", "99999999999999999999", "100000000000000000000",
    "184467440737095516160000000000000000000001", "184467440737095516160000000000000000000001x",
];

pub fn all(rt: &impl Print) -> io::Result<()> {
    for n in NUMBERS {
        print(rt, n)?;
    }
    print_powers(rt)?;
    print_short(rt)?;
    for time in [999, 1000, 5000999] {
        microseconds(rt, time)?;
    }
    for word in WORDS {
        read(rt, word)?;
    }
    Ok(())
}
