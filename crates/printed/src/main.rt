// Scripts on standard input, run and printed one after the other as `aps` does it: the examples, and one script for each answer.
//
// A script begins with a line of 40 bytes: its length in a column of 8, then its title. Then come the script and a line end.
// tools/examples writes them, and what is to be printed.

#![tactic(auto)]

use std::io;
use std::io::{Read, Write};

// A script's first line, and where its title begins.
const LINE: usize = 40;

const TITLE: usize = 8;

// Room for a script, its line end and more.
const ROOM: usize = 16_400;

// No more scripts are printed.
const MOST_SCRIPTS: u64 = 1_000;

fn print_next(
    input: &mut impl Read,
    out: &mut impl Write,
    line: &[u8; LINE],
    text: &mut [u8; ROOM],
) -> io::Result<()> {
    let [length] = cases::columns::<1>(line);
    let length = cases::read_script(input, text, length as usize)?.unwrap_or(0);
    out.write_all(&line[TITLE..])?;
    printing::run_and_print(out, &text[..length])
}

fn main(rt: HostRuntime) -> io::Result<()> {
    let mut input = rt.stdin();
    let mut out = rt.stdout();
    let mut text = [0u8; ROOM];
    for _ in 0..MOST_SCRIPTS {
        let Some(line) = lines::next_line::<LINE>(&mut input)? else {
            break;
        };
        print_next(&mut input, &mut out, &line, &mut text)?;
    }
    Ok(())
}
