// Bytes as lower-case hex digits, and back; `-` stands for no bytes.
ghost use Rattle.std.specs.Prelude.{◌<◌};

use crate::words::Bytes;
use std::io;

// The byte that two characters spell.
fn byte_of(high: u8, low: u8) -> Option<u8> {
    if escape::is_hex(high) && escape::is_hex(low) {
        Some(escape::hex_pair(high, low))
    } else {
        None
    }
}

// The bytes that a word spells, put at a place: where they end.
pub(crate) fn read(word: &[u8], out: &mut Bytes, at: usize) -> Option<usize> {
    if word == b"-".as_slice() {
        return Some(at);
    }
    let n = word.len() / 2;
    let room = out.get_mut(at..)?;
    if (n == 0) | (word.len() % 2 != 0) | (room.len() < n) {
        return None;
    }
    for (place, pair) in room.iter_mut().zip(word.chunks_exact(2)) {
        *place = byte_of(pair[0], pair[1])?;
    }
    Some(at + n)
}

// Escape has the same for itself alone: its public calls write whole escapes.
fn digit(n: u8) -> u8
    requires { n < 16 }
{
    if n < 10 { b'0' + n } else { b'a' + (n - 10) }
}

// At most 500 bytes as hex on standard output, in one write: printed each by itself, they would be as many.
fn print_some(rt: &impl Print, bytes: &[u8]) -> io::Result<()> {
    let mut out = [0u8; 1000];
    for (pair, b) in out.chunks_exact_mut(2).zip(bytes) {
        pair[0] = digit(*b / 16);
        pair[1] = digit(*b % 16);
    }
    rt.write_all(slices::front(&out, 2 * bytes.len()))
}

// Bytes as hex on standard output, some after the other.
pub(crate) fn print(rt: &impl Print, bytes: &[u8]) -> io::Result<()> {
    if bytes.is_empty() {
        return print!(rt; "-");
    }
    for part in bytes.chunks(500) {
        print_some(rt, part)?;
    }
    Ok(())
}
