// The script's lines, one after the other: each is answered by one line on standard output.
use crate::state::State;
use crate::{
    board_calls, command_calls, joiner_calls, log_calls, reader_calls, renderer_calls, trail_calls,
    write_calls,
};
use script::answers::Told;
use script::input::Lines;
use script::vocabulary::{Call, OnLog};
use script::words::Words;
use script::{answers, lent, vocabulary};
use std::io;
use std::io::Input;

// A call on the log: the ring is the log's buffer, as long as its capacity.
fn on_log(state: &mut State, call: OnLog, words: &Words) -> Option<Told> {
    let made = state.log.as_mut()?;
    let ring = lent::first(&mut state.ring, made.capacity);
    let log = &mut made.log;
    let bytes = &state.bytes;
    let space = &mut state.space;
    match call {
        OnLog::Check => Some(log_calls::check(log, ring)),
        OnLog::Numbers => Some(log_calls::numbers(log)),
        OnLog::Peek => Some(log_calls::peek(words, ring, space)),
        OnLog::Poke => Some(log_calls::poke(words, bytes, ring)),
        OnLog::Set(setting) => Some(log_calls::set(log, setting, words.number(2))),
        OnLog::Outside => Some(write_calls::outside(log, words, bytes, ring, space)),
        OnLog::Box => Some(write_calls::from_box(log, words, bytes, ring, space)),
        OnLog::Reader => reader_calls::make(made),
        OnLog::OnReader(call) => reader_calls::call(made, call, words, ring, space),
        OnLog::Command => Some(command_calls::command(log, words, ring, space)),
        OnLog::Minimum => Some(command_calls::set_minimum(log, words, ring)),
        OnLog::Save => Some(trail_calls::save(log, words, ring, &mut state.image, space)),
    }
}

// What a line's call tells: nothing, if what it is on was never made.
fn call(state: &mut State, words: &Words) -> Option<Told> {
    match words.call {
        Call::Log => Some(log_calls::fresh(state, words)),
        Call::OnLog(call) => on_log(state, call, words),
        Call::Board => Some(board_calls::fresh(state, words)),
        Call::OnBoard(call) => board_calls::call(state, call, words),
        Call::Joiner => Some(joiner_calls::fresh(state, words)),
        Call::OnJoiner(call) => joiner_calls::call(state, call, words),
        Call::Line => Some(renderer_calls::line(words, &state.bytes, &mut state.space)),
        Call::Console => Some(renderer_calls::console(words)),
        Call::Disk => Some(trail_calls::fresh(state, words)),
        Call::OnDisk(call) => trail_calls::call(state, call, words),
    }
}

// The buffer that a line lends is the first bytes of the space, filled before the call.
fn answer_line(rt: &impl Print, state: &mut State, line: &[u8]) -> io::Result<()> {
    let Some(words) = vocabulary::read(line, &mut state.bytes) else {
        return answers::unknown(rt);
    };
    lent::prepare(&mut state.space, words.lent);
    let told = call(state, &words);
    answers::print(rt, &words, told, &state.space)
}

// Answers every line of the input. A proved loop has to end, and nothing says that the input does: so the lines are counted.
pub fn run(rt: &(impl Input + Print), lines: &mut Lines, state: &mut State) -> io::Result<()> {
    for _ in 0..u64::MAX {
        let Some(line) = lines.next_line(rt)? else {
            break;
        };
        answer_line(rt, state, line)?;
    }
    Ok(())
}
