// RUN held against cases on standard input.
//
// A case is a line of 136 bytes: 14 numbers in columns of 8, then a name. The numbers: 1 where a script follows and 0 where the last one is run again;
// the script's length; the limits on fuel, depth, bindings, cells and output; then what is expected: the answer's number and place, the units, bindings
// and cells taken, how many numbers are put out, and UNSET's second place. Then come the script with a line end, and a line of 24 bytes for each number.

#![tactic(auto)]

ghost use Rattle.std.specs.Prelude.{IfOk, IfSome, ◌<◌, ◌≤◌, length};

use answers::Report;
use lines::Tally;
use runner::Limits;
use std::io::{Read, Write};
use std::{fmt, io};

// A case's line: its columns, and a name in the rest but for the line end.
const LINE: usize = 136;

const COLUMN: usize = 8;

const COLUMNS: usize = 14;

const NAME: usize = COLUMNS * COLUMN;

// A line with a number expected.
const NUMBER_LINE: usize = 24;

// Room for a script, its line end and more.
const ROOM: usize = 32_768;

// The most numbers that a run may put out.
const MOST_NUMBERS: usize = 4096;

// No more cases are tried.
const MOST_CASES: u64 = 1_000_000;

// What a run comes to: the answer's number and place, what was taken and put out, and UNSET's second place.
#[derive(Clone, Copy, PartialEq, Eq)]
struct Outcome {
    number: u64,
    place: u64,
    units: u64,
    bindings: u64,
    cells: u64,
    numbers: u64,
    made: u64,
}

impl From<Report> for Outcome {
    fn from(report: Report) -> Outcome {
        let Report {
            answer,
            units,
            bindings,
            cells,
            numbers,
        } = report;
        Outcome {
            number: answers::number_of(answer),
            place: answers::place_of(answer),
            units,
            bindings,
            cells,
            numbers,
            made: answers::made_of(answer),
        }
    }
}

impl fmt::Display for Outcome {
    fn fmt<W: fmt::Write>(&self, f: &mut fmt::Formatter<W>) -> fmt::Result {
        let Outcome {
            number,
            place,
            units,
            bindings,
            cells,
            numbers,
            made,
        } = *self;
        write!(
            f,
            "answers {number} at {place} units {units} bindings {bindings}"
        )?;
        write!(f, " cells {cells} numbers {numbers} made at {made}")
    }
}

// What a case's line says.
#[derive(Clone, Copy)]
struct Case {
    // none where the last script is run again
    length: Option<usize>,
    limits: Limits,
    expected: Outcome,
}

impl Case {
    fn read(line: &[u8]) -> Case {
        let [
            follows,
            length,
            fuel,
            depth,
            bindings,
            cells,
            output,
            number,
            place,
            taken_units,
            taken_bindings,
            taken_cells,
            numbers,
            made,
        ] = columns::<COLUMNS>(line);
        Case {
            length: (follows != 0).then_some(length as usize),
            limits: Limits {
                fuel,
                depth,
                bindings,
                cells,
                output,
            },
            expected: Outcome {
                number,
                place,
                units: taken_units,
                bindings: taken_bindings,
                cells: taken_cells,
                numbers,
                made,
            },
        }
    }
}

// The number that a line writes at a column, 0 where there is none within the range.
pub fn number_at(line: &[u8], at: usize) -> i64 {
    numerals::number_at(line, at)
        .and_then(|numeral| numeral.value.ok())
        .unwrap_or(0)
}

// The same as a count.
pub fn count_at(line: &[u8], at: usize) -> u64 {
    number_at(line, at).cast_unsigned()
}

// The counts in a line's first columns.
pub fn columns<const N: usize>(line: &[u8]) -> [u64; N] {
    let mut counts = [0; N];
    for (i, count) in counts.iter_mut().enumerate() {
        *count = count_at(line, i.saturating_mul(COLUMN));
    }
    counts
}

// Reads a script of so many bytes and the line end behind it, and answers its length: none, with nothing read, where the text has no room.
pub fn read_script(input: &mut impl Read, text: &mut [u8], size: usize) -> io::Result<Option<usize>>
    ensures { IfOk result (λ read. IfSome read (λ n. n < length text.new)) }
{
    if text.len() <= size {
        return Ok(None);
    }
    lines::read_full(input, &mut text[..=size])?;
    Ok(Some(size))
}

// Reads the script that follows, where one does, and answers its length; else the length of the last one.
fn script(input: &mut impl Read, case: Case, text: &mut [u8], last: usize) -> io::Result<usize>
    requires { last ≤ length text.old }
    ensures { IfOk result (λ n. n ≤ length text.new) }
{
    match case.length {
        Some(length) => Ok(read_script(input, text, length)?.unwrap_or(last)),
        None => Ok(last),
    }
}

// The next line's number, which is expected.
fn next_number(input: &mut impl Read) -> io::Result<i64> {
    let mut line = [0u8; NUMBER_LINE];
    lines::read_full(input, &mut line)?;
    Ok(number_at(&line, 0))
}

// Reads the numbers expected, and compares each.
fn numbers_agree(input: &mut impl Read, output: &[i64], count: u64) -> io::Result<bool> {
    let mut agree = true;
    for &number in output.iter().take(count as usize) {
        if next_number(input)? != number {
            agree = false;
        }
    }
    Ok(agree)
}

// A case's name.
fn say_name(out: &mut impl Write, line: &[u8; LINE]) -> io::Result<()> {
    out.write_all(&line[NAME..LINE - 1])
}

// Says of a case what it came to: of each where all are to be named, else only of one that differs.
fn say(
    out: &mut impl Write,
    line: &[u8; LINE],
    named: bool,
    agrees: bool,
    outcome: Outcome,
) -> io::Result<()> {
    if !agrees {
        say_name(out, line)?;
        writeln!(out, " {outcome}")
    } else if named {
        say_name(out, line)?;
        writeln!(out, " ok")
    } else {
        Ok(())
    }
}

// Runs one case's script and compares.
fn try_case(
    input: &mut impl Read,
    out: &mut impl Write,
    line: &[u8; LINE],
    named: bool,
    case: Case,
    script: &[u8],
) -> io::Result<bool> {
    let mut output = [0i64; MOST_NUMBERS];
    let outcome = Outcome::from(runner::run(script, case.limits, &mut output));
    let numbers_agree = numbers_agree(input, &output, case.expected.numbers)?;
    let agrees = outcome == case.expected && numbers_agree;
    say(out, line, named, agrees, outcome)?;
    Ok(agrees)
}

// Tries every case, of no more than a million, and says how many agree.
pub fn try_all(input: &mut impl Read, out: &mut impl Write, named: bool) -> io::Result<()> {
    let mut text = [0u8; ROOM];
    let mut length = 0;
    let mut tally = Tally::default();
    for _ in 0..MOST_CASES {
        let Some(line) = lines::next_line::<LINE>(input)? else {
            break;
        };
        let case = Case::read(&line);
        length = script(input, case, &mut text, length)?;
        tally.count(try_case(input, out, &line, named, case, &text[..length])?);
    }
    writeln!(out, "{tally}")
}
