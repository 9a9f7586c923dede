// Writing bytes to standard output.
use std::io;

// Bytes as numbers, a space before each.
pub fn bytes(rt: &impl Print, s: &[u8]) -> io::Result<()> {
    for b in s {
        print!(rt; " {b}")?;
    }
    Ok(())
}
