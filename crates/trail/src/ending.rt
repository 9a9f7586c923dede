// How a trail ended, in words.
use crate::input::Input;
use crate::records::{Printed, Unwritten};
use image::{Ending, Fault};
use std::{fmt, io};

// So many records.
#[derive(Clone, Copy)]
struct Records(u64);

impl fmt::Display for Records {
    fn fmt<W: fmt::Write>(&self, f: &mut fmt::Formatter<W>) -> fmt::Result {
        if self.0 == 1 {
            write!(f, "1 record")
        } else {
            write!(f, "{} records", self.0)
        }
    }
}

// What is wrong with a block.
fn wrong(f: Fault) -> &'static str {
    match f {
        Fault::Number => "wrong number",
        Fault::Save => "wrong save number",
        Fault::Edition => "wrong edition",
        Fault::Count => "wrong count",
        Fault::Check => "wrong check",
    }
}

// The edition is told where the first block told one, and the last block that is held is marked.
fn tell(rt: &impl Print, first: bool, lines: Printed) -> io::Result<()> {
    let count = Records(lines.records);
    match lines.ending {
        Ending::Ended if first => println!(rt; "end: {count}, edition {}", lines.edition),
        Ending::Ended => println!(rt; "end: {count}"),
        Ending::BadBlock(_, place) if place == Input::BLOCKS => {
            let why = "the input goes on, and this program reads no further";
            println!(rt; "stop at block {place}: {why} ({count} before it)")
        }
        Ending::BadBlock(f, place) => {
            println!(rt; "stop at block {place}: {} ({count} before it)", wrong(f))
        }
        Ending::BadRecord(place) => println!(rt;
            "stop at record {place}: it breaks the heading rules"
        ),
        Ending::Unfinished(place) => println!(rt; "stop at record {place}: unfinished"),
    }
}

fn printed(
    rt: &impl Print,
    first: bool,
    lines: Result<Printed, Unwritten>,
) -> Result<(), Unwritten> {
    tell(rt, first, lines?)?;
    Ok(())
}

// The last line; and on standard error what could not be read or written. A line that can't be written there has no other place.
pub fn print(rt: &(impl Print + Eprint), input: Input, lines: Result<Printed, Unwritten>) {
    if printed(rt, Input::BLOCK <= input.length, lines).is_err() {
        let _ = eprintln!(rt; "trail: standard output could not be written");
    }
    if input.failed {
        let _ = eprintln!(rt;
            "trail: standard input could not be read behind byte {}",
            input.length
        );
    }
}
