// The \x form: T9, and every byte written and read back.
use crate::say;
use escape::UnescapeError;
use std::io;

// An escaped run, read back, which ends a line. Fixed memory, here and below: a part of the buffer is what was put there.
fn back(rt: &impl Print, s: &[u8]) -> io::Result<()> {
    let mut out = [0; 8];
    match escape::unescape(s, &mut out, 0) {
        Ok(n) => {
            say::bytes(rt, slices::front(&out, n))?;
            println!(rt)
        }
        Err(UnescapeError::NoRoom) => println!(rt; " no room"),
        Err(UnescapeError::Misshapen) => println!(rt; " misshapen"),
    }
}

// A byte as a kmsg line has it, and read back.
fn byte(rt: &impl Print, b: u8) -> io::Result<()> {
    print!(rt; "byte {b} ")?;
    let mut out = [0; 4];
    match escape::escape(&[b], &mut out, 0) {
        Some(n) => {
            let escaped = slices::front(&out, n);
            rt.write_all(escaped)?;
            back(rt, escaped)
        }
        None => println!(rt; "no room"),
    }
}

// What isn't needed, and what isn't legal.
fn read(rt: &impl Print, s: &str) -> io::Result<()> {
    print!(rt; "unescape {s}:")?;
    back(rt, s.as_bytes())
}

#[rattlefmt::skip]
const RUNS: [&str; 8] = ["\\x41B\\x43", "\\x5c", "\\", "\\x4", "\\X41", "\\x4A", "abcdefgh", "abcdefghi"];

pub fn all(rt: &impl Print) -> io::Result<()> {
    for b in 0..=255 {
        byte(rt, b)?;
    }
    for s in RUNS {
        read(rt, s)?;
    }
    Ok(())
}
