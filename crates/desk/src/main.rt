// RUN's cases, a line for each: those of document 01 that no theorem holds; the tariffs of examples/; its edges, with the greatest limits and one beyond each,
// the deepest evaluations with the widest call, and each table one entry too small. Limits are the greatest unless given.

#![tactic(auto)]

ghost use Rattle.std.specs.Prelude.{◌≤◌};

use answers::Report;
use std::io;
use std::io::Write;

// The greatest limits: on fuel, on depth, and each on bindings, cells and output.
const FUEL: u64 = 1_000_000;

const DEPTH: u64 = 200;

const ROOM: u64 = 4_096;

// What the tables need for them: a script's words; the evaluator's rows; and the output.
const WORDS: usize = 4_096;

const STACK: usize = WORDS + 1;

const ROWS: usize = 2 * WORDS;

// How many tables RUN is lent.
const TABLES: u64 = 9;

// n, or one less where the table is the one to be too small.
fn entries(n: usize, is_short: bool) -> usize
    ensures { result ≤ n }
{
    n.saturating_sub(usize::from(is_short))
}

// What RUN answers where one of the tables is too small: none, where the number is past them.
// Kept: a table goes by its place in RUN's order, since that number is what is printed.
fn answer_with_short(table: u64) -> Report {
    let mut tree = [0u64; WORDS];
    let mut words = [0u64; WORDS];
    let mut stack = [0u64; STACK];
    let mut scopes = [0u64; WORDS];
    let mut notes = [0u64; WORDS];
    let mut waiting = [0u64; ROWS];
    let mut bindings = [0u64; ROWS];
    let mut cells = [0u64; ROWS];
    let mut output = [0i64; WORDS];
    gate::run(
        b"[ECHO 1]",
        FUEL,
        DEPTH,
        ROOM,
        ROOM,
        ROOM,
        &mut tree[..entries(WORDS, table == 0)],
        &mut words[..entries(WORDS, table == 1)],
        &mut stack[..entries(STACK, table == 2)],
        &mut scopes[..entries(WORDS, table == 3)],
        &mut notes[..entries(WORDS, table == 4)],
        &mut waiting[..entries(ROWS, table == 5)],
        &mut bindings[..entries(ROWS, table == 6)],
        &mut cells[..entries(ROWS, table == 7)],
        &mut output[..entries(WORDS, table == 8)],
    )
}

fn say_short(out: &mut impl Write, table: u64) -> io::Result<()> {
    let number = answers::number_of(answer_with_short(table).answer);
    writeln!(out, "table {table} too small: {number}")
}

// What RUN answers where each table in turn is too small, and where none is.
fn say_all_short(out: &mut impl Write) -> io::Result<()> {
    for table in 0..=TABLES {
        say_short(out, table)?;
    }
    Ok(())
}

fn main(rt: HostRuntime) -> io::Result<()> {
    let mut out = rt.stdout();
    cases::try_all(&mut rt.stdin(), &mut out, true)?;
    say_all_short(&mut out)
}
