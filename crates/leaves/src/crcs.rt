// CRC-32 of inputs of many lengths, beside zlib's.
ghost use Rattle.std.specs.Prelude.{◌<◌};

use std::io;

// One more than the longest.
const ROOM: usize = 1101;

// Bytes of a linear congruence.
fn fill(bytes: &mut [u8]) {
    let mut n: u64 = 1;
    for b in bytes {
        n = (n % 4294967296) * 1664525 + 1013904223;
        *b = (n / 16777216 % 256) as u8;
    }
}

fn print(rt: &impl Print, what: &str, bytes: &[u8]) -> io::Result<()> {
    println!(rt; "crc {what} {} {}", bytes.len(), crc::crc32(bytes))
}

// The first bytes: none, so many, twice as many, and on.
fn lengths(rt: &impl Print, what: &str, bytes: &[u8], step: usize) -> io::Result<()>
    requires { 0 < step }
{
    for n in (0..bytes.len()).step_by(step) {
        print(rt, what, slices::front(bytes, n))?;
    }
    Ok(())
}

// The same byte everywhere.
fn even(rt: &impl Print, what: &str, byte: u8) -> io::Result<()> {
    lengths(rt, what, &[byte; ROOM], 99)
}

fn made(rt: &impl Print) -> io::Result<()> {
    let mut bytes = [0u8; ROOM];
    fill(&mut bytes);
    lengths(rt, "made", &bytes, 1)
}

pub fn all(rt: &impl Print) -> io::Result<()> {
    print(rt, "digits", b"123456789")?;
    even(rt, "zeros", 0)?;
    even(rt, "ones", 255)?;
    made(rt)
}
