// What the programs read and print: bytes and lines from an input, and numbers and tallies to an output.

#![tactic(auto)]

ghost use Rattle.std.specs.Prelude.{IfOk, ◌≡◌, ◌≤◌, ◌+◌, ◌%◌, ◌^◌, cond, length};

use std::io::{Read, Write};
use std::{fmt, io};

// Reads until `bytes` is full or the input ends, and answers how many bytes now stand at its start.
pub fn read_full(input: &mut impl Read, bytes: &mut [u8]) -> io::Result<usize>
    ensures { IfOk result (λ n. n ≤ length bytes.new) }
{
    let mut done = 0;
    // Kept: how much a read gets is known only from it, so no range counts the turns.
    while done < bytes.len() {
        match input.read(&mut bytes[done..])? {
            0 => break,
            n => done += n,
        }
    }
    Ok(done)
}

// The next line, its end among its N bytes: none where the input ends before.
pub fn next_line<const N: usize>(input: &mut impl Read) -> io::Result<Option<[u8; N]>> {
    let mut line = [0u8; N];
    let is_whole = read_full(input, &mut line)? == N;
    Ok(is_whole.then_some(line))
}

// The first `count` numbers, or all where there are fewer, each on a line of its own.
pub fn number_lines(out: &mut impl Write, numbers: &[i64], count: u64) -> io::Result<()> {
    for number in numbers.iter().take(count as usize) {
        writeln!(out, "{number}")?;
    }
    Ok(())
}

// How many cases were tried, and how many agree.
#[derive(Clone, Copy, Debug, Default, PartialEq, Eq)]
pub struct Tally {
    pub tried: u64,
    pub agree: u64,
}

impl Tally {
    // One more case was tried. Both counts wrap.
    pub fn count(&mut self, agrees: bool)
        ensures tried { self.new.tried ≡ (self.old.tried + 1) % 2 ^ 64 }
        ensures agree { self.new.agree ≡ (self.old.agree + cond agrees 1 0) % 2 ^ 64 }
    {
        self.tried = self.tried.wrapping_add(1);
        self.agree = self.agree.wrapping_add(u64::from(agrees));
    }
}

impl fmt::Display for Tally {
    fn fmt<W: fmt::Write>(&self, f: &mut fmt::Formatter<W>) -> fmt::Result {
        let Tally { tried, agree } = *self;
        write!(f, "{agree} of {tried} agree")
    }
}
