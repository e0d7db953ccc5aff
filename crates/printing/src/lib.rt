// What the program `aps` prints of a script: its numbers, one a line, and its end; of one that is refused, one line.

#![tactic(auto)]

use answers::{Answer, Report};
use std::io::Write;
use std::{fmt, io};

// The most numbers that a run may put out.
const MOST_NUMBERS: usize = 4096;

// A script's last line, and its only one where it is refused.
#[derive(Clone, Copy)]
struct LastLine(Report);

impl fmt::Display for LastLine {
    fn fmt<W: fmt::Write>(&self, f: &mut fmt::Formatter<W>) -> fmt::Result {
        let Report {
            answer,
            units,
            bindings,
            cells,
            ..
        } = self.0;
        let number = answers::number_of(answer);
        let place = answers::place_of(answer);
        if runner::is_refusal(answer) {
            return write!(f, "refused {number} at {place}");
        }
        write!(
            f,
            "end {number} at {place} units {units} bindings {bindings} cells {cells}"
        )?;
        if let Answer::Unset(_, made) = answer {
            write!(f, " made at {made}")?;
        }
        Ok(())
    }
}

fn print(out: &mut impl Write, report: Report, output: &[i64]) -> io::Result<()> {
    if !runner::is_refusal(report.answer) {
        lines::number_lines(out, output, report.numbers)?;
    }
    writeln!(out, "{}", LastLine(report))
}

// Runs a script with the limits that document 01 gives a program, and prints.
pub fn run_and_print(out: &mut impl Write, text: &[u8]) -> io::Result<()> {
    let mut output = [0i64; MOST_NUMBERS];
    let report = runner::run(text, runner::usual_limits(), &mut output);
    print(out, report, &output)
}
