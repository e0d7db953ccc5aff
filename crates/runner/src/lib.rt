// RUN for programs: with tables of its own, all but the output, which the caller reads afterwards.

#![tactic(auto)]

ghost use Rattle.std.specs.Prelude.{◌≡◌, nat_le, ◌&&◌};
ghost use Rattle.language.specs.Answers.{number_of};
ghost use Rattle.answers.specs.Answers.{meant, said};
ghost use Rattle.runner.specs.Own.{given, program_limits, RunOwn};

use answers::{Answer, Report};
use gate::WAITING_ENTRIES;
use limits::{Depth, Room};

// The most words of a script, and of its tree.
const WORDS: usize = 4096;

const STACK: usize = WORDS + 1;

// Two words for each binding, and for each cell.
const ROWS: usize = 8192;

// Well below the greatest.
const USUAL_FUEL: u64 = 100_000;

// The numbers of the refusals.
const FIRST_REFUSAL: u64 = 1;

const LAST_REFUSAL: u64 = 10;

#[derive(Clone, Copy, Debug, PartialEq, Eq)]
pub struct Limits {
    pub fuel: u64,
    pub depth: u64,
    pub bindings: u64,
    pub cells: u64,
    pub output: u64,
}

// What document 01 gives a script on standard input: fuel 100,000, depth 200, and the rest greatest.
pub fn usual_limits() -> Limits
    ensures { given result ≡ program_limits }
{
    Limits {
        fuel: USUAL_FUEL,
        depth: Depth::MAX,
        bindings: Room::MAX,
        cells: Room::MAX,
        output: Room::MAX,
    }
}

pub fn run(text: &[u8], limits: Limits, output: &mut [i64]) -> Report
    ensures { RunOwn (given limits) text.now output.old (said result) output.new }
{
    let mut tree = [0u64; WORDS];
    let mut words = [0u64; WORDS];
    let mut stack = [0u64; STACK];
    let mut scopes = [0u64; WORDS];
    let mut notes = [0u64; WORDS];
    let mut waiting = [0u64; WAITING_ENTRIES];
    let mut bindings = [0u64; ROWS];
    let mut cells = [0u64; ROWS];
    gate::run(
        text,
        limits.fuel,
        limits.depth,
        limits.bindings,
        limits.cells,
        limits.output,
        &mut tree,
        &mut words,
        &mut stack,
        &mut scopes,
        &mut notes,
        &mut waiting,
        &mut bindings,
        &mut cells,
        output,
    )
}

// Whether a script was refused, and not run.
pub fn is_refusal(answer: Answer) -> bool
    ensures { result ≡ nat_le 1 (number_of (meant answer)) && nat_le (number_of (meant answer)) 10 }
{
    matches!(answers::number_of(answer), FIRST_REFUSAL..=LAST_REFUSAL)
}
