// Prints the tree of the fare script on standard input, a word a line as 16 hex digits, or why it is refused.

#![tactic(auto)]

use answers::Answer;
use std::io;
use std::io::Write;

// One byte more than a script may have, so that a longer one is refused.
const ROOM: usize = 16_384 + 1;

// The most words that a tree, or a script, may have.
const MOST_WORDS: usize = 4096;

// The words up to the zeros behind the tree: no node's word is 0.
fn print_tree(out: &mut impl Write, tree: &[u64]) -> io::Result<()> {
    for word in tree.iter().take_while(|&&word| word != 0) {
        writeln!(out, "{word:016x}")?;
    }
    Ok(())
}

fn print(out: &mut impl Write, answer: Answer, tree: &[u64]) -> io::Result<()> {
    match answer {
        Answer::Done => print_tree(out, tree),
        _ => {
            let number = answers::number_of(answer);
            let place = answers::place_of(answer);
            writeln!(out, "refused {number} at {place}")
        }
    }
}

fn main(rt: HostRuntime) -> io::Result<()> {
    let mut text = [0u8; ROOM];
    let length = lines::read_full(&mut rt.stdin(), &mut text)?;
    let mut tree = [0u64; MOST_WORDS];
    let mut words = [0u64; MOST_WORDS];
    let mut stack = [0u64; MOST_WORDS + 1];
    let mut scopes = [0u64; MOST_WORDS];
    let mut notes = [0u64; MOST_WORDS];
    let verdict = verdict::check(
        &text[..length],
        &mut tree,
        &mut words,
        &mut stack,
        &mut scopes,
        &mut notes,
    );
    print(&mut rt.stdout(), answers::answer_to(verdict), &tree)
}
