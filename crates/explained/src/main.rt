// Scripts on standard input, explained one after the other: each refusal and each stop, and lines of every kind around the place.
//
// A script begins with a line of 80 bytes: its length and the limits on fuel, depth, bindings, cells and output, in columns of 8, then its title.
// Then come the script and a line end.

#![tactic(auto)]

use runner::Limits;
use std::io;
use std::io::{Read, Write};

// A script's first line, and where its title begins.
const LINE: usize = 80;

const TITLE: usize = 48;

// Room for a script, its line end and more.
const ROOM: usize = 16_400;

// No more scripts are explained.
const MOST_SCRIPTS: u64 = 1_000;

fn explain_next(
    input: &mut impl Read,
    out: &mut impl Write,
    line: &[u8; LINE],
    text: &mut [u8; ROOM],
) -> io::Result<()> {
    let [length, fuel, depth, bindings, cells, output] = cases::columns::<6>(line);
    let limits = Limits {
        fuel,
        depth,
        bindings,
        cells,
        output,
    };
    let length = cases::read_script(input, text, length as usize)?.unwrap_or(0);
    out.write_all(&line[TITLE..])?;
    explaining::explain(out, &text[..length], limits)
}

fn main(rt: HostRuntime) -> io::Result<()> {
    let mut input = rt.stdin();
    let mut out = rt.stdout();
    let mut text = [0u8; ROOM];
    for _ in 0..MOST_SCRIPTS {
        let Some(line) = lines::next_line::<LINE>(&mut input)? else {
            break;
        };
        explain_next(&mut input, &mut out, &line, &mut text)?;
    }
    Ok(())
}
