// The board: "board buffer not 7,680 or a slot's text length over 960".
use crate::say;
use board::{Board, Slot};
use record::Seq;
use std::io;

// A board whose channel 23 shows number 9, with a text of this length.
fn showing(size: usize) -> Board {
    let mut board = Board::new();
    board.slots[7] = Slot {
        shown: Some(Seq(9)),
        size,
    };
    board
}

// Channel 16 shows nothing still, and channel 23 what it did.
fn kept(board: Board, size: usize) -> bool {
    let first = board.slots[0];
    let last = board.slots[7];
    first.shown.is_none() & (first.size == 0) & (last.shown == Some(Seq(9))) & (last.size == size)
}

// T14's message, for channel 16, delivered to such a board. The size is that of a slot's text, and not the buffer's.
fn deliver(rt: &impl Print, buffer: &mut [u8], size: usize) -> io::Result<()> {
    print!(rt; "board, buffer {}, text length {size}", buffer.len())?;
    let told = board::deliver(showing(size), buffer, b"134,7,1,-;1-0\n");
    let stayed = say::stayed(buffer) & kept(told.board, size);
    say::answer(rt, say::number(told.answer), stayed)
}

// Arrays of other sizes are other types, so no `for` goes over them.
pub fn all(rt: &impl Print) -> io::Result<()> {
    deliver(rt, &mut [165; 7680], 960)?;
    deliver(rt, &mut [165; 7679], 960)?;
    deliver(rt, &mut [165; 7681], 960)?;
    deliver(rt, &mut [165; 7680], 961)
}
