// The script's syslog(2) commands, and the box's call that sets the minimum console level. The log's buffer is lent to them as one that none of them can
// change.
use crate::state;
use eventlog::Log;
use script::answers::Told;
use script::words::Words;
use script::{decimals, lent};
use syslog::Asked;

fn asked(words: &Words) -> Asked {
    Asked {
        command: decimals::narrow(words.signed(1)),
        len: decimals::narrow(words.signed(2)),
        privilege: words.number(3) == 1,
        restriction: words.number(4) == 1,
    }
}

// Only commands 2 to 4 count bytes of the lent buffer.
pub fn command(log: &mut Log, words: &Words, ring: &[u8], space: &mut [u8]) -> Told {
    let asked = asked(words);
    let lent = lent::first(space, words.lent);
    let commanded = syslog::command(*log, ring, asked, lent);
    *log = commanded.log;
    let told = state::answered(commanded.answer);
    match asked.command {
        2..=4 => told.with_bytes(state::counted(commanded.answer)),
        _ => told,
    }
}

// The minimum: nothing is lent.
pub fn set_minimum(log: &mut Log, words: &Words, ring: &[u8]) -> Told {
    let commanded = syslog::set_minimum(*log, ring, words.signed(1));
    *log = commanded.log;
    state::answered(commanded.answer)
}
