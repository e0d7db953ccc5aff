// A text run from a purse.

#![tactic(auto)]

ghost use Rattle.std.specs.Prelude.{◌≡◌, true, ◌*◌, ◌≤◌, ◌<◌, suc, length};
ghost use Rattle.purse_model.specs.Journal.{purse_count, record_bytes};
ghost use Rattle.purse_model.specs.Purses.{fuel_given};
ghost use Rattle.answers.specs.Answers.{meant};
ghost use Rattle.gate.specs.Lent.{limits_of, working, stores};
ghost use Rattle.purse_run.specs.Meant.{refused_answer, Charges, work, RunBegins, PurseRun};

use answers::{Answer, Report, number_of};
use gate::run;
use purses::{Entry, Kind, PurseRefusal, has_room, make_steps, read_back};
use tables::entry;

// The lesser of the fuel asked for and the purse; beyond the greatest it stays, so that RUN answers LIMIT.
fn fuel_given(fuel: u64, holds: u64) -> u64
    ensures { result ≡ fuel_given fuel holds }
{
    if limits::Fuel::MAX < fuel {
        fuel
    } else {
        fuel.min(holds)
    }
}

// RUN's refusals are 1 to 10.
const LAST_REFUSAL: u64 = 10;

pub fn is_refused(answer: Answer) -> bool
    ensures { result ≡ refused_answer (meant answer) }
{
    matches!(number_of(answer), 1..=LAST_REFUSAL)
}

// The steps of a run that has ended: none where it was refused.
fn charge(
    journal: &mut [u8],
    place: usize,
    p: u64,
    report: Report,
    held: &[i64],
    bank: &mut [i64],
    n: usize,
)
    requires { (p < purse_count) × (record_bytes * suc place ≤ length journal.old) × (report.numbers ≤ length held.now) × (report.numbers ≤ length bank.old) ×
        (refused_answer (meant report.answer) ≡ true → report.numbers ≡ 0) }
    ensures { Charges n place p report held.now journal.old bank.old journal.new bank.new }
{
    if is_refused(report.answer) {
        return;
    }
    let charged = Entry {
        kind: Kind::Charge,
        purse: p,
        amount: report.units,
    };
    let numbers = &held[..report.numbers as usize];
    make_steps(journal, place, charged, numbers, bank, n);
}

// A run from a purse before its first step: what RUN reports, and the place of the run's record.
#[derive(Clone, Copy)]
pub struct RunBegun {
    pub report: Report,
    pub place: usize,
}

// Judges a call for a run and runs the text. Its numbers are held back in `held`; the journal is only read. The table of purses is left as the journal is read back.
pub fn begin_run(
    journal: &[u8],
    purses: &mut [u64],
    p: u64,
    text: &[u8],
    fuel: u64,
    depth: u64,
    most_bindings: u64,
    most_cells: u64,
    most_numbers: u64,
    tree: &mut [u64],
    words: &mut [u64],
    stack: &mut [u64],
    scopes: &mut [u64],
    notes: &mut [u64],
    waiting: &mut [u64],
    bindings: &mut [u64],
    cells: &mut [u64],
    held: &mut [i64],
) -> Result<RunBegun, PurseRefusal>
    requires { length purses.old ≡ purse_count }
    ensures { RunBegins journal.now p (limits_of fuel depth most_bindings most_cells most_numbers)
        (work text.now tree.old (working words.old stack.old scopes.old notes.old waiting.old)
        (stores (limits_of fuel depth most_bindings most_cells most_numbers) bindings.old cells.old) held.old)
        result tree.new words.new stack.new scopes.new notes.new waiting.new
        bindings.new cells.new held.new purses.new }
{
    let place = read_back(journal, purses)?;
    if purses::PURSES <= p {
        return Err(PurseRefusal::Purse(place));
    }
    if !has_room(journal, place) {
        return Err(PurseRefusal::Full(place));
    }
    let given = fuel_given(fuel, entry(purses, p));
    let report = run(
        text,
        given,
        depth,
        most_bindings,
        most_cells,
        most_numbers,
        tree,
        words,
        stack,
        scopes,
        notes,
        waiting,
        bindings,
        cells,
        held,
    );
    Ok(RunBegun { report, place })
}

// Runs a text from a purse, and makes the first n steps of the call. Its numbers are held back in `held` and then handed to `bank`.
pub fn run_from_purse(
    journal: &mut [u8],
    purses: &mut [u64],
    bank: &mut [i64],
    p: u64,
    n: usize,
    text: &[u8],
    fuel: u64,
    depth: u64,
    most_bindings: u64,
    most_cells: u64,
    most_numbers: u64,
    tree: &mut [u64],
    words: &mut [u64],
    stack: &mut [u64],
    scopes: &mut [u64],
    notes: &mut [u64],
    waiting: &mut [u64],
    bindings: &mut [u64],
    cells: &mut [u64],
    held: &mut [i64],
) -> Result<Report, PurseRefusal>
    requires { (length purses.old ≡ purse_count) × (length held.old ≤ length bank.old) }
    ensures { PurseRun journal.old p n (limits_of fuel depth most_bindings most_cells most_numbers)
        (work text.now tree.old (working words.old stack.old scopes.old notes.old waiting.old)
        (stores (limits_of fuel depth most_bindings most_cells most_numbers) bindings.old cells.old) held.old)
        bank.old result tree.new words.new stack.new scopes.new notes.new waiting.new
        bindings.new cells.new held.new journal.new bank.new purses.new }
{
    let begun = begin_run(
        journal,
        purses,
        p,
        text,
        fuel,
        depth,
        most_bindings,
        most_cells,
        most_numbers,
        tree,
        words,
        stack,
        scopes,
        notes,
        waiting,
        bindings,
        cells,
        held,
    )?;
    charge(journal, begun.place, p, begun.report, held, bank, n);
    Ok(begun.report)
}
