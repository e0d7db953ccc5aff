// The jobs as C functions. A slice is a pointer and a length for its caller; an answer comes back as document 01's number, and with it a report in a lent table.
// `include/mahrullis.h` declares them.

#![tactic(auto)]

mod calls; // calls.rt: purses and their journal

ghost use Rattle.std.specs.Prelude.{◌≡◌, [], ◌∷◌, ◌++◌, ◌≤◌, min, length, drop};
ghost use Rattle.verdict.specs.Answers.{lent};
ghost use Rattle.answers.specs.Answers.{said as told};
ghost use Rattle.gate.specs.Lent.{limits_of, working, stores};
ghost use Rattle.mahrullis.specs.Reports.{report_entries, part_entries, Put, CheckInto, RunInto, NameInto};

use answers::{Report, answer_to, made_of, number_of, place_of, refused};
use gate::run;
use verdict::check;
use words::name_at;

// The answer TABLE, which needs no report.
const TABLE: u64 = 3;

// A report: the answer's number and place, the units, bindings and cells taken, how many numbers were put out, and UNSET's second place.
const REPORT_ENTRIES: usize = 7;

// A part of a text: its offset and its length.
const PART_ENTRIES: usize = 2;

// Puts numbers into a table's first entries.
fn put_first<const N: usize>(table: &mut [u64], numbers: [u64; N])
    requires { N ≤ length table.old }
    ensures { table.new ≡ numbers.entry ++ drop N table.old }
{
    table[..N].copy_from_slice(&numbers);
}

// Puts the report down, and answers its number.
fn put_report(report: &mut [u64], said: Report) -> u64
    requires { report_entries ≤ length report.old }
    ensures { Put (told said) report.old result report.new }
{
    let numbers = [
        number_of(said.answer),
        place_of(said.answer),
        said.units,
        said.bindings,
        said.cells,
        said.numbers,
        made_of(said.answer),
    ];
    put_first(report, numbers);
    numbers[0]
}

// CHECK. A report table under seven entries is TABLE, and nothing is changed.
#[unsafe(no_mangle)]
pub extern "C" fn mahrullis_check(
    text: &[u8],
    tree: &mut [u64],
    words: &mut [u64],
    stack: &mut [u64],
    scopes: &mut [u64],
    notes: &mut [u64],
    report: &mut [u64],
) -> u64
    ensures { CheckInto text.now tree.old
        (lent words.old stack.old scopes.old notes.old) report.old
        result tree.new (words.new ∷ stack.new ∷ scopes.new ∷ notes.new ∷ []) report.new }
{
    if report.len() < REPORT_ENTRIES {
        return TABLE;
    }
    let verdict = check(text, tree, words, stack, scopes, notes);
    put_report(report, refused(answer_to(verdict)))
}

// RUN. A report table under seven entries is TABLE, and nothing is changed.
#[unsafe(no_mangle)]
pub extern "C" fn mahrullis_run(
    text: &[u8],
    fuel: u64,
    depth: u64,
    most_bindings: u64,
    most_cells: u64,
    most_numbers: u64,
    tree: &mut [u64],
    words: &mut [u64],
    stack: &mut [u64],
    scopes: &mut [u64],
    notes: &mut [u64],
    waiting: &mut [u64],
    bindings: &mut [u64],
    cells: &mut [u64],
    output: &mut [i64],
    report: &mut [u64],
) -> u64
    ensures { RunInto (limits_of fuel depth most_bindings most_cells most_numbers) text.now tree.old
        (working words.old stack.old scopes.old notes.old waiting.old)
        (stores (limits_of fuel depth most_bindings most_cells most_numbers) bindings.old cells.old) output.old
        report.old
        result tree.new (words.new ∷ stack.new ∷ scopes.new ∷ notes.new ∷ waiting.new ∷ [])
        (bindings.new ∷ cells.new ∷ []) output.new report.new }
{
    if report.len() < REPORT_ENTRIES {
        return TABLE;
    }
    let said = run(
        text,
        fuel,
        depth,
        most_bindings,
        most_cells,
        most_numbers,
        tree,
        words,
        stack,
        scopes,
        notes,
        waiting,
        bindings,
        cells,
        output,
    );
    put_report(report, said)
}

// NAME: offset and length of the name at a place; the length is 0 where no name starts, and the offset is never past the text's end.
#[unsafe(no_mangle)]
pub extern "C" fn mahrullis_name(text: &[u8], at: usize, part: &mut [u64]) -> u64
    ensures { NameInto text.now at part.old result part.new }
{
    if part.len() < PART_ENTRIES {
        return TABLE;
    }
    let name = name_at(text, at);
    let offset = at.min(text.len());
    put_first(part, [offset as u64, name.len() as u64]);
    0
}
