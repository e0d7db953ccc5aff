// Runs a fare script from standard input and prints its numbers and its end.

#![tactic(auto)]

use std::io;

// One byte more than a script may have, so that a longer one is refused.
const ROOM: usize = 16_384 + 1;

fn main(rt: HostRuntime) -> io::Result<()> {
    let mut text = [0u8; ROOM];
    let length = lines::read_full(&mut rt.stdin(), &mut text)?;
    printing::run_and_print(&mut rt.stdout(), &text[..length])
}
