// Says in words what the fare script on standard input comes to: why it is refused and where, or what its run did.

#![tactic(auto)]

use std::io;

// One byte more than a script may have, so that a longer one is refused.
const ROOM: usize = 16_384 + 1;

fn main(rt: HostRuntime) -> io::Result<()> {
    let mut text = [0u8; ROOM];
    let length = lines::read_full(&mut rt.stdin(), &mut text)?;
    explaining::explain(&mut rt.stdout(), &text[..length], runner::usual_limits())
}
