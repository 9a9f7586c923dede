// What a rehearsal keeps from line to line: what was made, each thing with its buffer.
ghost use Rattle.std.specs.Prelude.{◌<◌, IfSome};

use board::Board;
use eventlog::{Answer, Log};
use joiner::Joiner;
use savedtrail::Reader;
use script::answers::Told;
use script::lent::Space;
use script::words::Bytes;

// A log in a buffer of so many bytes, and its readers: one after the other is made.
#[derive(Clone, Copy)]
pub struct Made {
    pub log: Log,
    pub capacity: usize,
    pub readers: [Option<kmsg::Reader>; 16],
}

// A file of so many bytes, and its reader.
#[derive(Clone, Copy)]
pub struct File {
    pub length: usize,
    pub trail: Option<Reader>,
}

// As long as a script may ask for.
pub type Disk = [u8; 90000];

// The image that was saved last: its length, if one was saved.
#[derive(Drop)]
pub struct Image {
    pub length: Option<usize>,
    pub bytes: Disk,
}

// All buffers are as long as a script may ask for: a program has no memory but its stack.
#[derive(Drop)]
pub struct State {
    pub log: Option<Made>,
    pub ring: [u8; 70000],
    pub board: Option<Board>,
    pub slots: [u8; Board::BUFFER],
    pub joiner: Option<Joiner>,
    pub texts: [u8; Joiner::BUFFER],
    pub image: Image,
    pub file: Option<File>,
    pub disk: Disk,
    // the bytes of a line's words, and the buffer that it lends
    pub bytes: Bytes,
    pub space: Space,
}

impl State {
    pub fn new() -> Self {
        State {
            log: None,
            ring: [0; 70000],
            board: None,
            slots: [0; Board::BUFFER],
            joiner: None,
            texts: [0; Joiner::BUFFER],
            image: Image {
                length: None,
                bytes: [0; 90000],
            },
            file: None,
            disk: [0; 90000],
            bytes: [0; 20000],
            space: [0; 300000],
        }
    }
}

// What an answer of the log tells.
pub fn answered(answer: Answer) -> Told {
    Told::signed(eventlog::answer_number(answer))
}

// How many bytes of a lent buffer an answer of the log counts.
pub fn counted(answer: Answer) -> usize {
    answer.map_or(0, |n| n as usize)
}

// The place of a facility's channel, if it has one.
pub fn place_of(facility: u64) -> Option<usize>
    ensures { IfSome result (λ k. k < 8) }
{
    let place = facility.checked_sub(channel::FIRST)? as usize;
    (place < channel::CHANNELS).then_some(place)
}
