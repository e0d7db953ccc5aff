// Purses and their journal: entries, reading back, and the steps that write a record.

#![tactic(auto)]

mod entries; // entries.rt: what a record says, and its bytes

ghost use Rattle.std.specs.Prelude.{◌≡◌, [], ◌++◌, ◌+◌, ◌*◌, ◌≤◌, ◌<◌, suc, length, get_or, set, drop};
ghost use Rattle.purse_model.specs.Journal.{purse_count, record_bytes, kind_of, moved, entry_of, moved_by, bytes_of, read_back};
ghost use Rattle.purse_model.specs.Purses.{world, after, stores_from};
ghost use Rattle.purse_model.specs.Purses.{credits, record_left};
ghost use Rattle.purses.specs.Meant.{said, entry_said, Numbered, Holds, Entered, ReadsAs, came_back, Stepped, CreditBegins, CreditComes};
ghost use Rattle.purses.specs.Meant.{nth, entry_steps, lent_for, pending_step, Makes};

pub use entries::{Entry, Kind, NoEntry, RECORD_BYTES};
use entries::{MARK, PURSE_NUMBERS};
use tables::put;

pub const PURSES: u64 = 64;

pub const TOP: u64 = 4_294_967_295;

// The place of a record that has its mark and is wrong.
#[derive(Clone, Copy, Debug, PartialEq, Eq)]
pub struct WrongRecord {
    pub place: usize,
}

// Why a call on a purse is refused, 34 to 36, with the place up to which the journal was read back.
#[derive(Clone, Copy, Debug, PartialEq, Eq)]
pub enum PurseRefusal {
    Purse(usize),
    Journal(usize),
    Full(usize),
}

impl From<WrongRecord> for PurseRefusal {
    ghost use Rattle.purses.specs.declared.PurseRefusal.TheVariants.{Journal};

    ghost from_gives = { λ wrong refusal. refusal ≡ Journal wrong.place };

    fn from(wrong: WrongRecord) -> PurseRefusal {
        PurseRefusal::Journal(wrong.place)
    }
}

// What a purse holds after an entry; none where the purse is over 63, a credit goes past the top, or a charge beyond the purse.
fn holds_after(purses: &[u64], kind: Kind, p: u64, amount: u64) -> Option<u64>
    ensures { Holds (moved purses.now (Rattle.purse_model.specs.Journal.entry (said kind) p amount)) purses.now p result }
{
    if PURSES <= p {
        return None;
    }
    let held = tables::entry(purses, p);
    match kind {
        Kind::Credit => held.checked_add(amount).filter(|sum| *sum <= TOP),
        Kind::Charge => held.checked_sub(amount),
    }
}

// Makes an entry, where it is one.
pub fn enter(purses: &mut [u64], kind: u64, p: u64, amount: u64) -> Result<(), NoEntry>
    ensures { Entered (moved_by purses.old (entry_of (kind_of kind) p amount 0)) purses.old result purses.new }
{
    let kind = Kind::try_from(kind)?;
    let holds = holds_after(purses, kind, p, amount).ok_or(NoEntry)?;
    put(purses, p, holds);
    Ok(())
}

// Enters the record that these bytes begin with; none where they have no mark.
pub fn read_record(bytes: &[u8], purses: &mut [u64]) -> Option<Result<(), NoEntry>>
    requires { record_bytes ≤ length bytes.now }
    ensures { ReadsAs result purses.old bytes.now purses.new }
{
    if bytes[7] != MARK {
        return None;
    }
    if bytes[6] != 0 {
        return Some(Err(NoEntry));
    }
    let head = u64::from(u16::from_be_bytes([bytes[0], bytes[1]]));
    let amount = u32::from_be_bytes([bytes[2], bytes[3], bytes[4], bytes[5]]);
    Some(enter(
        purses,
        head / PURSE_NUMBERS,
        head % PURSE_NUMBERS,
        u64::from(amount),
    ))
}

// Reads a journal back, up to the first record without its mark: answers how many records were read.
pub fn read_back(journal: &[u8], purses: &mut [u64]) -> Result<usize, WrongRecord>
    requires { length purses.old ≡ purse_count }
    ensures { came_back result purses.new ≡ read_back journal.now }
{
    purses.fill(0);
    let end = journal.len() / RECORD_BYTES;
    for place in 0..end {
        let Some(entered) = read_record(&journal[place * RECORD_BYTES..], purses) else {
            return Ok(place);
        };
        if entered.is_err() {
            return Err(WrongRecord { place });
        }
    }
    Ok(end)
}

// The k-th byte of a record.
pub fn byte_of(entry: Entry, k: usize) -> u8
    requires { k < record_bytes }
    ensures { result ≡ get_or (bytes_of (entry_said entry)) k 0 }
{
    entry.bytes()[k]
}

// One step of a call: stores the k-th byte of its record.
pub fn store_byte(journal: &mut [u8], place: usize, entry: Entry, k: usize)
    requires { (k < record_bytes) × (record_bytes * suc place ≤ length journal.old) }
    ensures { journal.new ≡ set journal.old (record_bytes * place + k) (get_or (bytes_of (entry_said entry)) k 0) }
{
    let b = byte_of(entry, k);
    journal[RECORD_BYTES * place + k] = b;
}

// The first n steps of a call that store: what a cut after n steps leaves.
pub fn store_bytes(journal: &mut [u8], place: usize, entry: Entry, n: usize)
    requires { record_bytes * suc place ≤ length journal.old }
    ensures { journal.new ≡
        (after n (stores_from (record_bytes * place) (bytes_of (entry_said entry))) (world journal.old [])).journal }
{
    for k in 0..n.min(RECORD_BYTES) {
        store_byte(journal, place, entry, k);
    }
}

// Numbers that a run holds back are handed to the bank.
fn hand_on(numbers: &[i64], bank: &mut [i64])
    requires { length numbers.now ≤ length bank.old }
    ensures { bank.new ≡ numbers.now ++ drop (length numbers.now) bank.old }
{
    for (i, number) in numbers.iter().enumerate() {
        bank[i] = *number;
    }
}

// The first n steps of a call: its record's bytes, the mark last, and then its numbers.
pub fn make_steps(
    journal: &mut [u8],
    place: usize,
    entry: Entry,
    numbers: &[i64],
    bank: &mut [i64],
    n: usize,
)
    requires { (record_bytes * suc place ≤ length journal.old) × (length numbers.now ≤ length bank.old) }
    ensures { Stepped n (record_bytes * place) (bytes_of (entry_said entry)) numbers.now journal.old bank.old journal.new bank.new }
{
    store_bytes(journal, place, entry, n);
    let more = n.saturating_sub(RECORD_BYTES).min(numbers.len());
    hand_on(&numbers[..more], bank);
}

// Is a whole record left at this place?
pub fn has_room(journal: &[u8], place: usize) -> bool
    ensures { result ≡ record_left place journal.now }
{
    place < journal.len() / RECORD_BYTES
}

// Judges a credit: answers the place of its record. The table of purses is left as the journal is read back; nothing is stored.
pub fn begin_credit(
    journal: &[u8],
    purses: &mut [u64],
    p: u64,
    amount: u64,
) -> Result<usize, PurseRefusal>
    requires { length purses.old ≡ purse_count }
    ensures { CreditBegins journal.now p amount result purses.new }
{
    let place = read_back(journal, purses)?;
    if holds_after(purses, Kind::Credit, p, amount).is_none() {
        return Err(PurseRefusal::Purse(place));
    }
    if !has_room(journal, place) {
        return Err(PurseRefusal::Full(place));
    }
    Ok(place)
}

// A credit, of whose steps the first n are made: all of them where n is 8 or more. The table of purses is left as the journal was read back.
pub fn credit(
    journal: &mut [u8],
    purses: &mut [u64],
    p: u64,
    amount: u64,
    n: usize,
) -> Result<(), PurseRefusal>
    requires { length purses.old ≡ purse_count }
    ensures { CreditComes journal.old p amount n result journal.new purses.new }
{
    let place = begin_credit(journal, purses, p, amount)?;
    let credited = Entry {
        kind: Kind::Credit,
        purse: p,
        amount,
    };
    store_bytes(journal, place, credited, n);
    Ok(())
}

// Has what a step is lent the record's place, and that of each number? And is the purse one?
fn lent_for(
    journal: &[u8],
    held: &[i64],
    bank: &[i64],
    place: usize,
    p: u64,
    numbers: usize,
) -> bool
    ensures { result ≡ lent_for place p numbers journal.now held.now bank.now }
{
    p < PURSES && has_room(journal, place) && numbers <= held.len() && numbers <= bank.len()
}

// Step k of a call that writes this entry, or false past its last: a byte of its record, or then one of its numbers.
fn step_of(
    journal: &mut [u8],
    place: usize,
    entry: Entry,
    numbers: &[i64],
    bank: &mut [i64],
    k: usize,
) -> bool
    requires { (record_bytes * suc place ≤ length journal.old) × (length numbers.now ≤ length bank.old) }
    ensures { Makes (nth k (entry_steps (entry_said entry) place numbers.now)) k journal.old bank.old result journal.new bank.new }
{
    if k < RECORD_BYTES {
        store_byte(journal, place, entry, k);
        return true;
    }
    let i = k - RECORD_BYTES;
    let Some(number) = numbers.get(i) else {
        return false;
    };
    bank[i] = *number;
    true
}

// Makes step k of a call that has been judged, and no other; or nothing, and answers false, past its last step and where what is lent has no place for its steps.
// The record's kind is 1 or 2, and another means that nothing is pending.
pub fn step(
    journal: &mut [u8],
    place: usize,
    kind: u64,
    p: u64,
    amount: u64,
    held: &[i64],
    numbers: usize,
    bank: &mut [i64],
    k: usize,
) -> bool
    ensures { Makes (pending_step k (entry_of (kind_of kind) p amount 0) place p numbers held.now journal.old bank.old) k
        journal.old bank.old result journal.new bank.new }
{
    if !lent_for(journal, held, bank, place, p, numbers) {
        return false;
    }
    let Ok(kind) = Kind::try_from(kind) else {
        return false;
    };
    let entry = Entry {
        kind,
        purse: p,
        amount,
    };
    step_of(journal, place, entry, &held[..numbers], bank, k)
}
