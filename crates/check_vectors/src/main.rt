// CHECK held against cases on standard input: the answer, its place, the tree, and the zeros that are left.
//
// A case is some lines of 16 hex digits and a script: the number and the place that are expected, the script's length, how many words its tree has; then the
// script with a line end; then the tree's words.

#![tactic(auto)]

use answers::Answer;
use lines::Tally;
use std::io;
use std::io::Read;

// A line's digits, and their line end.
const DIGITS: usize = 16;

const LINE: usize = DIGITS + 1;

// Room for a script, its line end and more.
const ROOM: usize = 32_768;

// The most words that a tree, or a script, may have.
const MOST_WORDS: usize = 4096;

// No more cases are tried.
const MOST_CASES: u64 = 1_000_000;

#[derive(Clone, Copy)]
struct Case {
    number: u64,
    place: u64,
    length: usize,
    words: u64,
}

// The tables that CHECK is lent.
#[derive(Clone, Copy)]
struct Tables {
    tree: [u64; MOST_WORDS],
    words: [u64; MOST_WORDS],
    stack: [u64; MOST_WORDS + 1],
    scopes: [u64; MOST_WORDS],
    notes: [u64; MOST_WORDS],
}

// Kept: char::to_digit would read A to F too.
fn digit(b: u8) -> u64 {
    match b {
        b'0'..=b'9' => u64::from(b - b'0'),
        b'a'..=b'f' => u64::from(b - b'a') + 10,
        _ => 0,
    }
}

fn number_in(line: &[u8; LINE]) -> u64 {
    line.iter()
        .take(DIGITS)
        .fold(0, |number, &b| number << 4 | digit(b))
}

fn next_number(input: &mut impl Read) -> io::Result<u64> {
    let mut line = [0u8; LINE];
    lines::read_full(input, &mut line)?;
    Ok(number_in(&line))
}

// The rest of a case whose first line was read.
fn next_case(input: &mut impl Read, line: &[u8; LINE]) -> io::Result<Case> {
    Ok(Case {
        number: number_in(line),
        place: next_number(input)?,
        length: next_number(input)? as usize,
        words: next_number(input)?,
    })
}

// Reads the words expected, and compares each.
fn words_agree(input: &mut impl Read, tree: &[u64], count: u64) -> io::Result<bool> {
    let mut agree = true;
    for &word in tree.iter().take(count as usize) {
        if next_number(input)? != word {
            agree = false;
        }
    }
    Ok(agree)
}

fn is_zero(table: &[u64]) -> bool {
    table.iter().all(|&word| word == 0)
}

impl Tables {
    fn new() -> Tables {
        Tables {
            tree: [0; MOST_WORDS],
            words: [0; MOST_WORDS],
            stack: [0; MOST_WORDS + 1],
            scopes: [0; MOST_WORDS],
            notes: [0; MOST_WORDS],
        }
    }

    fn check(&mut self, text: &[u8]) -> Answer {
        answers::answer_to(verdict::check(
            text,
            &mut self.tree,
            &mut self.words,
            &mut self.stack,
            &mut self.scopes,
            &mut self.notes,
        ))
    }

    // Whether zeros are left behind the tree, and in the other tables.
    fn is_clear_from(&self, tree_end: usize) -> bool {
        self.tree.iter().skip(tree_end).all(|&word| word == 0)
            && is_zero(&self.words)
            && is_zero(&self.stack)
            && is_zero(&self.scopes)
            && is_zero(&self.notes)
    }
}

// Where the tree ends: none is left after a refusal. LENGTH leaves the table as it was, so that all of it may be the last case's tree.
fn tree_end(answer: Answer, words: u64) -> usize {
    match answer {
        Answer::Done => words as usize,
        Answer::Length => MOST_WORDS,
        _ => 0,
    }
}

fn try_case(
    input: &mut impl Read,
    case: Case,
    text: &mut [u8; ROOM],
    tables: &mut Tables,
) -> io::Result<bool> {
    let length = case.length;
    if text.len() <= length {
        return Ok(false);
    }
    // with the line end behind it
    let read = lines::read_full(input, &mut text[..=length])?;
    if read <= length {
        return Ok(false);
    }
    let answer = tables.check(&text[..length]);
    let tree_agrees = words_agree(input, &tables.tree, case.words)?;
    Ok(
        tree_agrees
            && answers::number_of(answer) == case.number
            && answers::place_of(answer) == case.place
            && tables.is_clear_from(tree_end(answer, case.words)),
    )
}

fn main(rt: HostRuntime) -> io::Result<()> {
    let mut input = rt.stdin();
    let mut text = [0u8; ROOM];
    let mut tables = Tables::new();
    let mut tally = Tally::default();
    for _ in 0..MOST_CASES {
        let Some(line) = lines::next_line::<LINE>(&mut input)? else {
            break;
        };
        let case = next_case(&mut input, &line)?;
        tally.count(try_case(&mut input, case, &mut text, &mut tables)?);
    }
    println!(rt; "{tally}")
}
