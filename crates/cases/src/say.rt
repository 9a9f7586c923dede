// What a call was lent and what it did, in a line.
use refusal::Refusal;
use std::io;

// A buffer is lent with each byte 165, and all of them are 165 still.
pub fn stayed(bytes: &[u8]) -> bool {
    bytes.iter().all(|b| *b == 165)
}

// Document 01's number for an answer, and 0 for none. No From: neither type is this crate's.
pub fn number<T: Copy>(answer: Result<T, Refusal>) -> u32 {
    match answer {
        Ok(_) => 0,
        Err(why) => u32::from(why),
    }
}

// A call's answer, and whether all that was lent or handed in is as it was.
pub fn answer(rt: &impl Print, answer: u32, stayed: bool) -> io::Result<()> {
    let change = if stayed { "nothing changed" } else { "changed" };
    println!(rt; ": {answer}, {change}")
}
