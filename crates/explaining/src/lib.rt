// What RUN answers, in words: for a refusal and a stop the line, a caret under the place, and a sentence that says what to change.

#![tactic(auto)]

mod sentences;

use crate::sentences::{name, say_sentence};
use answers::{Answer, Report};
use runner::Limits;
use spots::Spot;
use std::io::Write;
use std::{fmt, io};

// The most numbers that a run may put out.
const MOST_NUMBERS: usize = 4096;

// The room for a row of `spots`.
const ROW: usize = 128;

// So many of a thing: 1 cell, 2 cells.
#[derive(Clone, Copy)]
struct Count(u64, &'static str);

impl fmt::Display for Count {
    fn fmt<W: fmt::Write>(&self, f: &mut fmt::Formatter<W>) -> fmt::Result {
        let Count(n, thing) = *self;
        let ending = if n == 1 { "" } else { "s" };
        write!(f, "{n} {thing}{ending}")
    }
}

// What a run took and put out.
#[derive(Clone, Copy)]
struct Taken(Report);

impl fmt::Display for Taken {
    fn fmt<W: fmt::Write>(&self, f: &mut fmt::Formatter<W>) -> fmt::Result {
        let units = Count(self.0.units, "unit");
        let bindings = Count(self.0.bindings, "binding");
        let cells = Count(self.0.cells, "cell");
        let numbers = Count(self.0.numbers, "number");
        write!(f, "{units}: {bindings}, {cells}, {numbers}")
    }
}

// A place of a text.
#[derive(Clone, Copy)]
struct Place(Spot);

impl Place {
    fn find(text: &[u8], at: usize) -> Place {
        Place(spots::spot_at(text, at))
    }
}

impl fmt::Display for Place {
    fn fmt<W: fmt::Write>(&self, f: &mut fmt::Formatter<W>) -> fmt::Result {
        let Spot {
            line,
            column,
            place,
            ..
        } = self.0;
        write!(f, "byte {place}, line {line}, column {column}")
    }
}

fn say_row(out: &mut impl Write, row: &[u8]) -> io::Result<()> {
    write!(out, "\n  ")?;
    out.write_all(row)
}

// The line, and the caret under the place.
fn say_rows(out: &mut impl Write, text: &[u8], at: usize) -> io::Result<()> {
    let mut row = [0u8; ROW];
    let length = spots::line_shown(text, at, &mut row);
    say_row(out, &row[..length])?;
    let length = spots::caret_shown(text, at, &mut row);
    say_row(out, &row[..length])
}

fn has_place(answer: Answer) -> bool {
    !matches!(
        answer,
        Answer::Done | Answer::Length | Answer::Limit | Answer::Table
    )
}

fn say_why(out: &mut impl Write, text: &[u8], limits: Limits, answer: Answer) -> io::Result<()> {
    let name = name(answer);
    let number = answers::number_of(answer);
    write!(out, "{name} ({number})")?;
    if has_place(answer) {
        let at = answers::place_of(answer) as usize;
        write!(out, " at {}", Place::find(text, at))?;
        say_rows(out, text, at)?;
    }
    writeln!(out)?;
    say_sentence(out, text, limits, answer)?;
    writeln!(out)
}

fn say(
    out: &mut impl Write,
    text: &[u8],
    limits: Limits,
    report: Report,
    output: &[i64],
) -> io::Result<()> {
    let answer = report.answer;
    if runner::is_refusal(answer) {
        write!(out, "refused: ")?;
        return say_why(out, text, limits, answer);
    }
    lines::number_lines(out, output, report.numbers)?;
    let taken = Taken(report);
    if let Answer::Done = answer {
        return writeln!(out, "done after {taken}");
    }
    write!(out, "stopped: ")?;
    say_why(out, text, limits, answer)?;
    writeln!(out, "stopped after {taken}")
}

// Runs a script within limits, and says what came of it.
pub fn explain(out: &mut impl Write, text: &[u8], limits: Limits) -> io::Result<()> {
    let mut output = [0i64; MOST_NUMBERS];
    let report = runner::run(text, limits, &mut output);
    say(out, text, limits, report, &output)
}
