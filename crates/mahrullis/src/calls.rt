// Purses as C functions: one step a call for a journal that a cut may tear, and all steps in one call for a journal in memory.
ghost use Rattle.std.specs.Prelude.{◌≡◌, [], ◌∷◌, ◌++◌, ◌≤◌, ◌<◌, length, drop};
ghost use Rattle.gate.specs.Lent.{limits_of, working, stores};
ghost use Rattle.purse_model.specs.Journal.{purse_count};
ghost use Rattle.purse_model.specs.Purses.{refusal_number};
ghost use Rattle.purses.specs.Meant.{refusal_said};
ghost use Rattle.purse_run.specs.Meant.{work};
ghost use Rattle.mahrullis.specs.Reports.{report_entries};
ghost use Rattle.mahrullis.specs.PurseReports.{pending_entries, pending_left, run_left, refusal_report, told_whole};
ghost use Rattle.mahrullis.specs.PurseReports.{ShowInto, CreditInto, CreditBeginInto, StepInto, PurseRunBeginInto, PurseRunInto};

use crate::{REPORT_ENTRIES, TABLE, put_first, put_report};
use purse_run::{RunBegun, begin_run, is_refused, run_from_purse};
use purses::{Entry, Kind, PurseRefusal, begin_credit, credit, read_back, step};

// The answers besides RUN's.
const PURSE: u64 = 34;

const JOURNAL: u64 = 35;

const FULL: u64 = 36;

// The entries of the tables lent for purses and for what is pending.
const PURSE_ENTRIES: usize = 64;

const PENDING_ENTRIES: usize = 5;

fn number_of_refusal(refusal: PurseRefusal) -> u64
    ensures { result ≡ refusal_number (refusal_said refusal) }
{
    match refusal {
        PurseRefusal::Purse(_) => PURSE,
        PurseRefusal::Journal(_) => JOURNAL,
        PurseRefusal::Full(_) => FULL,
    }
}

// What a call has left to do: its record's entry and place, and how many numbers are held.
#[derive(Clone, Copy)]
struct Pending {
    entry: Entry,
    place: usize,
    numbers: u64,
}

// Puts down what a call has left to do. Kind 0 is nothing.
fn put_pending(pending: &mut [u64], left: Option<Pending>)
    requires { pending_entries ≤ length pending.old }
    ensures { pending.new ≡ pending_left left ++ drop pending_entries pending.old }
{
    let words = match left {
        Some(left) => [
            left.entry.kind.number(),
            left.place as u64,
            left.entry.purse,
            left.entry.amount,
            left.numbers,
        ],
        None => [0, 0, 0, 0, 0],
    };
    put_first(pending, words);
}

// The purses that a journal is read back to: answers 0, or JOURNAL and those before the wrong record.
#[unsafe(no_mangle)]
pub extern "C" fn mahrullis_purses(journal: &[u8], purses: &mut [u64]) -> u64
    ensures { ShowInto journal.now purses.old result purses.new }
{
    if purses.len() < PURSE_ENTRIES {
        return TABLE;
    }
    match read_back(journal, &mut purses[..PURSE_ENTRIES]) {
        Ok(_) => 0,
        Err(_) => JOURNAL,
    }
}

// A credit, of whose steps the first n are made.
#[unsafe(no_mangle)]
pub extern "C" fn mahrullis_credit(
    journal: &mut [u8],
    p: u64,
    amount: u64,
    n: usize,
    purses: &mut [u64],
) -> u64
    ensures { CreditInto journal.old p amount purses.old n result journal.new purses.new }
{
    if purses.len() < PURSE_ENTRIES {
        return TABLE;
    }
    match credit(journal, &mut purses[..PURSE_ENTRIES], p, amount, n) {
        Ok(()) => 0,
        Err(refusal) => number_of_refusal(refusal),
    }
}

// A credit up to its first step. The journal is only read.
#[unsafe(no_mangle)]
pub extern "C" fn mahrullis_credit_begin(
    journal: &[u8],
    p: u64,
    amount: u64,
    purses: &mut [u64],
    pending: &mut [u64],
) -> u64
    ensures { CreditBeginInto journal.now p amount purses.old pending.old result purses.new pending.new }
{
    if purses.len() < PURSE_ENTRIES || pending.len() < PENDING_ENTRIES {
        return TABLE;
    }
    match begin_credit(journal, &mut purses[..PURSE_ENTRIES], p, amount) {
        Ok(place) => {
            let entry = Entry {
                kind: Kind::Credit,
                purse: p,
                amount,
            };
            put_pending(
                pending,
                Some(Pending {
                    entry,
                    place,
                    numbers: 0,
                }),
            );
            0
        }
        Err(refusal) => {
            put_pending(pending, None);
            number_of_refusal(refusal)
        }
    }
}

// Step k of the call that is pending: answers 1, or 0 and does nothing where there is none.
#[unsafe(no_mangle)]
pub extern "C" fn mahrullis_purse_step(
    pending: &[u64],
    k: usize,
    journal: &mut [u8],
    held: &[i64],
    bank: &mut [i64],
) -> u64
    ensures { StepInto pending.now k held.now journal.old bank.old result journal.new bank.new }
{
    let &[kind, place, p, amount, numbers, ..] = pending else {
        return 0;
    };
    let made = step(
        journal,
        place as usize,
        kind,
        p,
        amount,
        held,
        numbers as usize,
        bank,
        k,
    );
    u64::from(made)
}

// What a run has left to do: nothing, where RUN refused it.
fn left_of(begun: RunBegun, p: u64) -> Option<Pending>
    requires { p < purse_count }
    ensures { pending_left result ≡ run_left begun p }
{
    if is_refused(begun.report.answer) {
        return None;
    }
    let entry = Entry {
        kind: Kind::Charge,
        purse: p,
        amount: begun.report.units,
    };
    Some(Pending {
        entry,
        place: begun.place,
        numbers: begun.report.numbers,
    })
}

// Puts a refusal's number down as a report: it has no places and no counts.
fn put_refusal(report: &mut [u64], refusal: PurseRefusal) -> u64
    requires { report_entries ≤ length report.old }
    ensures { (result ≡ refusal_number (refusal_said refusal)) × (report.new ≡ refusal_report (refusal_number (refusal_said refusal)) ++ drop report_entries report.old) }
{
    let number = number_of_refusal(refusal);
    put_first(report, [number, 0, 0, 0, 0, 0, 0]);
    number
}

// Have the tables of purses and of the report their entries?
fn told_whole(purses: &[u64], report: &[u64]) -> bool
    ensures { result ≡ told_whole purses.now report.now }
{
    PURSE_ENTRIES <= purses.len() && REPORT_ENTRIES <= report.len()
}

// A run from a purse up to its first step: the text is run, its numbers are held back, and the journal is only read.
#[unsafe(no_mangle)]
pub extern "C" fn mahrullis_purse_run_begin(
    journal: &[u8],
    p: u64,
    text: &[u8],
    fuel: u64,
    depth: u64,
    most_bindings: u64,
    most_cells: u64,
    most_numbers: u64,
    tree: &mut [u64],
    words: &mut [u64],
    stack: &mut [u64],
    scopes: &mut [u64],
    notes: &mut [u64],
    waiting: &mut [u64],
    bindings: &mut [u64],
    cells: &mut [u64],
    held: &mut [i64],
    purses: &mut [u64],
    report: &mut [u64],
    pending: &mut [u64],
) -> u64
    ensures { PurseRunBeginInto journal.now p (limits_of fuel depth most_bindings most_cells most_numbers)
        (work text.now tree.old (working words.old stack.old scopes.old notes.old waiting.old)
        (stores (limits_of fuel depth most_bindings most_cells most_numbers) bindings.old cells.old) held.old) purses.old report.old pending.old
        result tree.new (words.new ∷ stack.new ∷ scopes.new ∷ notes.new ∷ waiting.new ∷ [])
        (bindings.new ∷ cells.new ∷ []) held.new purses.new report.new pending.new }
{
    if !told_whole(purses, report) || pending.len() < PENDING_ENTRIES {
        return TABLE;
    }
    let end = PURSE_ENTRIES;
    let begun = begin_run(
        journal,
        &mut purses[..end],
        p,
        text,
        fuel,
        depth,
        most_bindings,
        most_cells,
        most_numbers,
        tree,
        words,
        stack,
        scopes,
        notes,
        waiting,
        bindings,
        cells,
        held,
    );
    match begun {
        Ok(begun) => {
            put_pending(pending, left_of(begun, p));
            put_report(report, begun.report)
        }
        Err(refusal) => {
            put_pending(pending, None);
            put_refusal(report, refusal)
        }
    }
}

// A run from a purse, of whose steps the first n are made: its numbers are held back, and after the mark handed to `bank`.
#[unsafe(no_mangle)]
pub extern "C" fn mahrullis_purse_run(
    journal: &mut [u8],
    p: u64,
    n: usize,
    bank: &mut [i64],
    text: &[u8],
    fuel: u64,
    depth: u64,
    most_bindings: u64,
    most_cells: u64,
    most_numbers: u64,
    tree: &mut [u64],
    words: &mut [u64],
    stack: &mut [u64],
    scopes: &mut [u64],
    notes: &mut [u64],
    waiting: &mut [u64],
    bindings: &mut [u64],
    cells: &mut [u64],
    held: &mut [i64],
    purses: &mut [u64],
    report: &mut [u64],
) -> u64
    ensures { PurseRunInto journal.old p (limits_of fuel depth most_bindings most_cells most_numbers)
        (work text.now tree.old (working words.old stack.old scopes.old notes.old waiting.old)
        (stores (limits_of fuel depth most_bindings most_cells most_numbers) bindings.old cells.old) held.old) purses.old report.old n bank.old
        result tree.new (words.new ∷ stack.new ∷ scopes.new ∷ notes.new ∷ waiting.new ∷ [])
        (bindings.new ∷ cells.new ∷ []) held.new purses.new report.new journal.new bank.new }
{
    if !told_whole(purses, report) || bank.len() < held.len() {
        return TABLE;
    }
    let end = PURSE_ENTRIES;
    let answer = run_from_purse(
        journal,
        &mut purses[..end],
        bank,
        p,
        n,
        text,
        fuel,
        depth,
        most_bindings,
        most_cells,
        most_numbers,
        tree,
        words,
        stack,
        scopes,
        notes,
        waiting,
        bindings,
        cells,
        held,
    );
    match answer {
        Ok(said) => put_report(report, said),
        Err(refusal) => put_refusal(report, refusal),
    }
}
