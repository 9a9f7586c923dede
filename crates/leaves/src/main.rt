// Runs the leaf crates' worked cases of document 01 on the real calls and writes what they answer. The file stdout beside src/ has what they should.
#![tactic(auto)]

mod crcs;
mod decimals;
mod escapes;
mod rings;
mod say;

use std::io;

fn main(rt: HostRuntime) -> io::Result<()> {
    decimals::all(&rt)?;
    escapes::all(&rt)?;
    rings::all(&rt)?;
    crcs::all(&rt)
}
