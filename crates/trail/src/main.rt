// A saved trail printed (document 02, tickets 3 and 7): an image of either edition on standard input, the kmsg line of each of its records on standard
// output, and behind them in words how the trail ended.
#![tactic(auto)]

mod ending;
mod input;
mod records;

use input::Input;

// Fixed memory: a part of the file's buffer is what was read.
fn main(rt: HostRuntime) {
    let mut file = [0u8; Input::ROOM];
    let input = input::read(&rt, &mut file);
    let printed = records::print(&rt, slices::front(&file, input.length));
    ending::print(&rt, input, printed);
}
