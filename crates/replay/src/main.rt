// The rehearsal tool: a script of calls on standard input, and one line of answer for each on standard output.
#![tactic(auto)]

mod board_calls;
mod command_calls;
mod joiner_calls;
mod lines;
mod log_calls;
mod reader_calls;
mod renderer_calls;
mod state;
mod trail_calls;
mod write_calls;

use script::input::Lines;
use state::State;
use std::io;

fn main(rt: HostRuntime) -> io::Result<()> {
    let mut lines = Lines::new();
    let mut state = State::new();
    lines::run(&rt, &mut lines, &mut state)
}
