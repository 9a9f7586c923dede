// Standard input, of any length.
//
// A reader wants the file as one run of bytes from its start, and a program has no memory but its stack, of 8 MiB as a rule. So 4 MiB of the input are held, many
// times the longest image: a trail that ends or stops in there is told as it is, however long the input. One that goes on behind them, as no log of ours
// leaves it, is told as that: the block behind them is held too, with a number that none has, and the reader stops there.
use std::io::{Input as Source, Read};

// What was read: how many bytes, and whether a read failed behind them. The bytes count either way, so this is no Result.
#[derive(Clone, Copy)]
pub struct Input {
    pub length: usize,
    pub failed: bool,
}

pub type File = [u8; Input::ROOM];

impl Input {
    // bytes of a block
    pub const BLOCK: usize = 512;

    // blocks that are held for a reader
    pub const BLOCKS: usize = 8192;

    // their bytes
    pub const HELD: usize = Input::BLOCK * Input::BLOCKS;

    // and those of the block behind them
    pub const ROOM: usize = Input::HELD + Input::BLOCK;
}

// A piece put behind what has come, as far as there is room.
fn with_piece(piece: &[u8], file: &mut File, at: usize) -> usize {
    let room = Input::ROOM.saturating_sub(at);
    slices::copy(slices::front(piece, room), file, at).unwrap_or(at)
}

// Reads to the input's end, or till the file is full. A proved loop has to end, and nothing says that the input does: so the reads are counted.
fn read_all(rt: &impl Source, file: &mut File) -> Input {
    let mut chunk = [0u8; 65536];
    let mut reader = rt.reader();
    let mut length = 0;
    for _ in 0..u64::MAX {
        let Ok(n) = reader.read(&mut chunk) else {
            return Input {
                length,
                failed: true,
            };
        };
        length = with_piece(slices::front(&chunk, n), file, length);
        if (n == 0) | (length == Input::ROOM) {
            break;
        }
    }
    Input {
        length,
        failed: false,
    }
}

// The last block that is held, with a number that none has.
fn mark_last(file: &mut File) {
    slices::copy(&[255, 255, 255, 255], file, Input::HELD);
}

pub fn read(rt: &impl Source, file: &mut File) -> Input {
    let input = read_all(rt, file);
    if input.length == Input::ROOM {
        mark_last(file);
    }
    input
}
