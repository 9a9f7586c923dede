// The script's writes, from outside and from the box. The space holds the log's bytes from before the write.
use crate::state;
use eventlog::Log;
use script::answers::Told;
use script::words::{Bytes, Words};
use script::{decimals, lent};
use writes::Written;

// The place behind the newest record.
fn end_of(log: &Log, capacity: usize) -> usize {
    let start = log.start.0;
    let used = log.used;
    if capacity <= start {
        return 0;
    }
    let before_end = capacity - start;
    if used < before_end {
        start + used
    } else {
        used - before_end
    }
}

// Only a write that was done changes the log's buffer, and only in the bytes of its record, behind the newest one.
fn stayed(was: &Log, written: &Written, before: &[u8], after: &[u8]) -> bool {
    let from = end_of(was, after.len());
    let to = end_of(&written.log, after.len());
    let cost = match written.answer {
        Ok(_) => lent::distance(from, to, after.len()),
        Err(_) => 0,
    };
    lent::stayed_around(before, after, from, cost)
}

// What a write leaves, and tells.
fn done(log: &mut Log, written: Written, before: &[u8], after: &[u8]) -> Told {
    let stayed = stayed(log, &written, before, after);
    *log = written.log;
    let mut told = state::answered(written.answer).marked(stayed);
    told.numbers[0] = written.dropped;
    told
}

// A caller that is left out is 0.
pub fn outside(
    log: &mut Log,
    words: &Words,
    bytes: &Bytes,
    ring: &mut [u8],
    space: &mut [u8],
) -> Told {
    slices::copy(ring, space, 0);
    let handed = words.bytes(2, bytes);
    let caller = decimals::word(words.number(3));
    let written = writes::write_outside(*log, ring, words.number(1), handed, caller);
    done(log, written, space, ring)
}

// The word behind the dictionary says that it is a fragment, the one behind that its caller; where there is none it says 0.
pub fn from_box(
    log: &mut Log,
    words: &Words,
    bytes: &Bytes,
    ring: &mut [u8],
    space: &mut [u8],
) -> Told {
    slices::copy(ring, space, 0);
    let written = writes::write_box(
        *log,
        ring,
        words.number(1),
        words.number(2),
        words.number(3),
        words.bytes(4, bytes),
        words.bytes(5, bytes),
        words.number(6) == 1,
        decimals::word(words.number(7)),
    );
    done(log, written, space, ring)
}
