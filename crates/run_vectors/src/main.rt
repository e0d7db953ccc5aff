// RUN against the vectors: how many agree, and a line for each that does not.

#![tactic(auto)]

use std::io;

fn main(rt: HostRuntime) -> io::Result<()> {
    cases::try_all(&mut rt.stdin(), &mut rt.stdout(), false)
}
