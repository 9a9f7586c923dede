// A full log, for the programs that bench/ times.
#![tactic(auto)]

ghost use Rattle.std.specs.Prelude.{◌≡◌};
ghost use Rattle.filling.specs.Filling.{left, filled};

use eventlog::Log;

// One record more than any log has room for.
pub const RECORDS: u64 = 2049;

// What every record has.
const FACILITY: u64 = 16;

const LEVEL: u64 = 6;

const CALLER: u32 = 4711;

// From one record to the next, in nanoseconds.
const APART: u64 = 1000999;

// A fresh log with records of this text, until the oldest is dropped for one.
pub fn fill(buffer: &mut [u8], text: &[u8]) -> Log
    ensures { left result buffer.new ≡ filled buffer.old text.now }
{
    let mut log = Log::new();
    for n in 0..RECORDS {
        let written = writes::write_box(
            log,
            buffer,
            FACILITY,
            LEVEL,
            n * APART,
            text,
            b"",
            false,
            CALLER,
        );
        log = written.log;
        if 0 < written.dropped {
            break;
        }
    }
    log
}
