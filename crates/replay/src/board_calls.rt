// The board of a rehearsal, and the script's calls on it.
use crate::state;
use crate::state::State;
use board::Board;
use script::answers::Told;
use script::vocabulary::OnBoard;
use script::words::{Bytes, Words};
use script::{decimals, lent};

// A fresh board. The joiner's is not one function with it: each sets a part of the state of its own type.
pub fn fresh(state: &mut State, words: &Words) -> Told {
    state.slots.fill(decimals::byte(words.number(1)));
    state.board = Some(Board::new());
    Told::form(0)
}

// Only a slot that shows another record now may change, and only in the bytes of its text.
fn stayed(was: &Board, board: &Board, before: &[u8], after: &[u8]) -> bool {
    for (k, (old, new)) in was.slots.iter().zip(&board.slots).enumerate() {
        if old.shown != new.shown {
            return lent::stayed_around(before, after, k * Board::TEXT, new.size);
        }
    }
    lent::stayed_around(before, after, 0, 0)
}

// What a delivery leaves, and tells. The space holds the board's bytes from before it. What a call needs of the state it is lent one by one, here as in the
// other files: the parts are borrowed apart beside what was made, and a struct of them would be taken apart again in its one use.
fn deliver(
    board: &mut Board,
    words: &Words,
    bytes: &Bytes,
    slots: &mut [u8],
    space: &mut [u8],
) -> Told {
    slices::copy(slots, space, 0);
    let delivered = board::deliver(*board, slots, words.bytes(1, bytes));
    let stayed = stayed(board, &delivered.board, space, slots);
    *board = delivered.board;
    let number = board::answer_number(delivered.answer.map_err(u32::from));
    Told::number(u64::from(number)).marked(stayed)
}

// What a channel's slot shows, with its text in the space.
fn slot(board: &Board, words: &Words, slots: &[u8], space: &mut [u8]) -> Option<Told> {
    let k = state::place_of(words.number(1))?;
    let slot = board.slots[k];
    let text = lent::part(slots, k * Board::TEXT, slot.size);
    slices::copy(text, space, 0);
    let size = slot.size as u64;
    let Some(number) = slot.shown else {
        return Some(Told::number(size));
    };
    let mut told = Told::number(number.0).meaning(1).with_bytes(text.len());
    told.numbers[1] = size;
    Some(told)
}

pub fn call(state: &mut State, call: OnBoard, words: &Words) -> Option<Told> {
    let board = state.board.as_mut()?;
    match call {
        OnBoard::Deliver => Some(deliver(
            board,
            words,
            &state.bytes,
            &mut state.slots,
            &mut state.space,
        )),
        OnBoard::Slot => slot(board, words, &state.slots, &mut state.space),
    }
}
