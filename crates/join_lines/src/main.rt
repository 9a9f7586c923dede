// The program `join_lines` (document 02, ticket 6): the messages of standard input joined, and each text that is given as a line.
#![tactic(auto)]

use feed::Received;
use joiner::Joiner;
use std::io;

fn join(
    rt: &impl Print,
    input: &[u8],
    texts: &mut [u8],
    out: &mut [u8; joinfeed::OUTPUT],
) -> io::Result<()> {
    let end = joinfeed::run(input, texts, out);
    rt.write_all(slices::front(out, end))
}

fn main(rt: HostRuntime) -> io::Result<()> {
    // One byte more than is taken, to see an input that is too long. Arrays, and how much of each is filled: there is no heap.
    let mut input = [0u8; Received::INPUT + 1];
    let n = streams::read_full(&mut rt.stdin(), &mut input)?;
    // Some 330 KB on the stack in all, most of them for the longest output.
    let mut texts = [0u8; Joiner::BUFFER];
    let mut out = [0u8; joinfeed::OUTPUT];
    join(&rt, &input[..n], &mut texts, &mut out)
}
