// What no script of the replay program can say: refusal 1 ROOM of the receiving end (document 01; the joiner's, document 02), with lent buffers of the right size and of wrong ones. The file
// stdout beside src/ has what this should write.
#![tactic(auto)]

mod boards;
mod joiners;
mod lines;
mod say;

use std::io;

fn main(rt: HostRuntime) -> io::Result<()> {
    lines::all(&rt)?;
    boards::all(&rt)?;
    joiners::all(&rt)
}
