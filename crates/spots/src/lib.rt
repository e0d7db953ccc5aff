// Where a place of a text stands, and what a reader is shown of its line: bytes that a log may hold, and a caret under the place.

#![tactic(auto)]

ghost use Rattle.std.specs.Prelude.{◌≡◌, [], ◌∷◌, map, ◌+◌, ◌-◌, ◌≤◌, ◌<◌, min, length};
ghost use Rattle.spots.specs.Lines.{ends_before, start_of, end_of, spot_of};
ghost use Rattle.spots.specs.Shown.{shown, under, drawn, part, from_of, to_of, marks, line_shown, caret_shown};
ghost use Rattle.spots.specs.Written.{Added, Written};

// A place: its line and its column, both counted from 1, the column in bytes; and where the line starts and ends. LF ends a line and is no part of it.
#[derive(Clone, Copy, Debug, PartialEq, Eq)]
pub struct Spot {
    pub line: usize,
    pub column: usize,
    pub place: usize,
    pub start: usize,
    pub end: usize,
}

// How many lines end before a place, and where its own starts.
#[derive(Clone, Copy)]
struct Begun {
    ended: usize,
    start: usize,
}

#[tactic(auto, using(crate::proofs::Lines::ends_le, crate::proofs::Lines::ends_more, crate::proofs::Lines::ends_same, crate::proofs::Lines::starts_here, crate::proofs::Lines::starts_before))]
fn line_begin(text: &[u8], place: usize) -> Begun
    requires { place ≤ length text.now }
    ensures { (result.ended ≡ ends_before text.now place) × (result.start ≡ start_of text.now place) }
{
    let mut ended = 0;
    let mut start = 0;
    for i in 0..place {
        if text[i] == b'\n' {
            ended += 1;
            start = i + 1;
        }
    }
    Begun { ended, start }
}

fn line_end(text: &[u8], place: usize) -> usize
    requires { place ≤ length text.now }
    ensures { result ≡ end_of text.now place }
{
    for end in place..text.len() {
        if text[end] == b'\n' {
            return end;
        }
    }
    text.len()
}

// A place past the text counts as its end.
pub fn spot_at(text: &[u8], at: usize) -> Spot
    ensures { result ≡ spot_of text.now at }
{
    let place = at.min(text.len());
    let Begun { ended, start } = line_begin(text, place);
    let end = line_end(text, place);
    Spot {
        line: ended + 1,
        column: place - start + 1,
        place,
        start,
        end,
    }
}

// Of a long line the bytes around the place are shown.
const REACH: usize = 60;

fn shown_from(start: usize, place: usize) -> usize
    ensures { result ≡ from_of start place }
{
    start.max(place.saturating_sub(REACH))
}

fn shown_to(place: usize, end: usize) -> usize
    ensures { result ≡ to_of place end }
{
    end.min(place.saturating_add(REACH))
}

// The line itself, and the line under it with the caret.
#[derive(Clone, Copy)]
enum Row {
    Line,
    Caret,
}

// A tab stays, a CR is a space like other separators, and what a log may not hold is a question mark.
fn shown(b: u8) -> u8
    ensures { result ≡ shown b }
{
    match b {
        b'\t' => b,
        b'\r' => b' ',
        b' '..=b'~' => b,
        _ => b'?',
    }
}

// Before the caret a tab stands under a tab, so that any width of tabs will do.
fn under(b: u8) -> u8
    ensures { result ≡ under b }
{
    if b == b'\t' { b'\t' } else { b' ' }
}

fn drawn(row: Row, b: u8) -> u8
    ensures { result ≡ drawn row b }
{
    match row {
        Row::Line => shown(b),
        Row::Caret => under(b),
    }
}

// A byte behind the first n.
fn add(out: &mut [u8], n: usize, b: u8) -> usize
    requires { n < length out.old }
    ensures { Added n out.old (b ∷ []) result out.new }
{
    out[n] = b;
    n + 1
}

// A mark of two bytes where the line is cut.
fn add_marks(out: &mut [u8], n: usize, cut: bool, b: u8) -> usize
    requires { n + 2 ≤ length out.old }
    ensures { Added n out.old (marks cut b) result out.new }
{
    if !cut {
        return n;
    }
    let m = add(out, n, b);
    add(out, m, b)
}

fn draw(text: &[u8], from: usize, to: usize, row: Row, out: &mut [u8], n: usize) -> usize
    requires { (from ≤ to) × (to ≤ length text.now) × (n + (to - from) ≤ length out.old) }
    ensures { Added n out.old (map (drawn row) (part text.now from to)) result out.new }
{
    let mut m = n;
    for i in from..to {
        m = add(out, m, drawn(row, text[i]));
    }
    m
}

// The line of a place, cut around it where it is long. Answers how many bytes it has.
pub fn line_shown(text: &[u8], at: usize, out: &mut [u8; 128]) -> usize
    ensures { Written (line_shown text.now at) result out.new }
{
    let found = spot_at(text, at);
    let place = found.place;
    let from = shown_from(found.start, place);
    let to = shown_to(place, found.end);
    let n = add_marks(out, 0, found.start < from, b'.');
    let m = draw(text, from, to, Row::Line, out, n);
    add_marks(out, m, to < found.end, b'.')
}

// The line under it: a caret under the place.
pub fn caret_shown(text: &[u8], at: usize, out: &mut [u8; 128]) -> usize
    ensures { Written (caret_shown text.now at) result out.new }
{
    let found = spot_at(text, at);
    let place = found.place;
    let from = shown_from(found.start, place);
    let n = add_marks(out, 0, found.start < from, b' ');
    let m = draw(text, from, place, Row::Caret, out, n);
    add(out, m, b'^')
}
