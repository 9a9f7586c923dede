// The receiver program (document 01, "The receiving end"): standard input fed to a board, and what the board then shows.
#![tactic(auto)]

ghost use Rattle.std.specs.Prelude.{◌≡◌, ◌≤◌, length, take};
ghost use Rattle.feed.specs.Feed.{output};
ghost use Rattle.feed.specs.Longest.{report_most};

use board::Board;
use feed::Received;
use std::io;

// How many bytes of a buffer that has room for any report are written: no input leaves it without room.
fn answer(input: &[u8], buffer: &mut [u8], out: &mut [u8]) -> usize
    requires { report_most ≤ length out.old }
    ensures { take result out.new ≡ output buffer.old input.now }
{
    feed::run(input, buffer, out).unwrap()
}

fn main(rt: HostRuntime) -> io::Result<()> {
    // One byte more than is taken, to see an input that is too long. Arrays, and how much of each is filled: there is no heap.
    let mut input = [0u8; Received::INPUT + 1];
    let n = streams::read_full(&mut rt.stdin(), &mut input)?;
    let mut buffer = [0u8; Board::BUFFER];
    let mut out = [0u8; Received::REPORT];
    let end = answer(&input[..n], &mut buffer, &mut out);
    rt.write_all(slices::front(&out, end))
}
