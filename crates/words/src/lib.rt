// From bytes to words: document 01, "From bytes to words".

#![tactic(auto)]

ghost use Rattle.std.specs.Prelude.{◌≡◌, true, false, [], ◌∷◌, ◌+◌, ◌*◌, ◌<◌, ℕ, Bool, min, length, drop, get_or, Ok, Some};
ghost use Rattle.language.specs.Words.{is_sep, is_letter, is_plain, stretch, name_at, symbols, key_words, mark_of};
ghost use Rattle.language.proofs.Reading.Machine.{code};
ghost use Rattle.words.specs.Tests.{TestsBytes};
ghost use Rattle.words.specs.Marks.{meant, marked, pack, cap, mark_packed};
ghost use Rattle.words.specs.Next.{found_from, found_there, read_found};

use numerals::Numeral;

// The symbols and the key words, each with its number.
#[derive(Clone, Copy, Debug, PartialEq, Eq)]
pub enum Mark {
    ListStart = 1,
    ListEnd = 2,
    Open = 3,
    Close = 4,
    Semicolon = 5,
    Colon = 6,
    Comma = 7,
    Star = 8,
    Arrow = 9,
    Const = 10,
    Fun = 11,
    Rec = 12,
    Var = 13,
    Proc = 14,
    Echo = 15,
    Set = 16,
    IfStatement = 17,
    While = 18,
    Call = 19,
    IfExpression = 20,
    And = 21,
    Or = 22,
    Bool = 23,
    Int = 24,
    VarParameter = 25,
    Adr = 26,
    Vec = 29,
    Alloc = 30,
    Nth = 31,
    Len = 32,
    Vset = 33,
    Return = 34,
}

impl Mark {
    pub fn number(self) -> u64
        ensures { result ≡ code (meant self) }
    {
        self as u64
    }
}

// What a word is. A name is told by its bytes alone.
#[derive(Clone, Copy, Debug, PartialEq, Eq)]
pub enum Token {
    Mark(Mark),
    Number(i64),
    Name,
}

// A word of a text, from its first byte up to the place past its last.
#[derive(Clone, Copy, Debug, PartialEq, Eq)]
pub struct Word {
    pub token: Token,
    pub start: usize,
    pub end: usize,
}

// Why a text has no words: a byte in no word, or a number outside the range, at its place. Document 01's BYTE and NUMBER.
#[derive(Clone, Copy, Debug, PartialEq, Eq)]
pub enum WordError {
    Byte(usize),
    Number(usize),
}

fn is_separator(b: u8) -> bool
    ensures { result ≡ is_sep b }
{
    matches!(b, b' ' | b'\t' | b'\n' | b'\r')
}

// The place past the longest stretch from `at` on of bytes that pass.
fn stretch_end<F: Fn(u8) -> bool>(text: &[u8], at: usize, passes: F) -> usize
    requires { F.IsAlwaysCallable passes }
    ensures { (p : ℕ → Bool) → TestsBytes (F.post passes) p → result ≡ at + length (stretch p (drop at text.now)) }
{
    // Kept: an index loop. `position` over the rest of the text was tried and proved, and scanned a text a third slower.
    let mut end = at;
    while end < text.len() {
        if !passes(text[end]) {
            return end;
        }
        end += 1;
    }
    end
}

// NAME, for the report desk: the very bytes of the name at a place, a part of the lent text and no copy. It starts at that place, also where it is empty,
// or at the text's end where the place is past it.
pub fn name_at<'a>(text: &'a [u8], at: usize) -> &'a [u8]
    ensures result_value { result.now ≡ name_at text.now at }
    ensures ref_ptr_value { (result.ref_ptr.0 ≡ text.entry.ref_ptr.0) × (result.ref_ptr.1 ≡ min at (length text.now) + text.entry.ref_ptr.1) }
{
    let end = text.len();
    if end <= at {
        return &text[end..end];
    }
    if !text[at].is_ascii_alphabetic() {
        return &text[at..at];
    }
    let e = stretch_end(text, at, |b| b.is_ascii_alphanumeric());
    &text[at..e]
}

fn symbol(b: u8) -> Option<Mark>
    ensures { result ≡ marked (mark_of symbols (b ∷ [])) }
{
    match b {
        b'[' => Some(Mark::ListStart),
        b']' => Some(Mark::ListEnd),
        b'(' => Some(Mark::Open),
        b')' => Some(Mark::Close),
        b';' => Some(Mark::Semicolon),
        b':' => Some(Mark::Colon),
        b',' => Some(Mark::Comma),
        b'*' => Some(Mark::Star),
        _ => None,
    }
}

// A word's number is kept at 2^63, more than any key word's.
const MOST: u64 = 0x8000000000000000;

// The number of a word with a byte more.
fn packed_more(v: u64, b: u8) -> u64
    ensures { result ≡ min (v * 256 + b) cap }
{
    if v < MOST / 256 {
        v * 256 + u64::from(b)
    } else {
        MOST
    }
}

// A word as one number: so a key word is found by one `match` on a number, and not by comparing the word with each of 23.
fn packed(word: &[u8]) -> u64
    ensures { result ≡ min (pack 0 word.now) cap }
{
    word.iter().fold(0, |v, b| packed_more(v, *b))
}

// The key word that is packed so.
fn key_packed(v: u64) -> Option<Mark>
    ensures { result ≡ mark_packed v key_words }
{
    match v {
        0x434F4E5354 => Some(Mark::Const), // CONST
        0x46554E => Some(Mark::Fun), // FUN
        0x524543 => Some(Mark::Rec), // REC
        0x564152 => Some(Mark::Var), // VAR
        0x50524F43 => Some(Mark::Proc), // PROC
        0x4543484F => Some(Mark::Echo), // ECHO
        0x534554 => Some(Mark::Set), // SET
        0x4946 => Some(Mark::IfStatement), // IF
        0x5748494C45 => Some(Mark::While), // WHILE
        0x43414C4C => Some(Mark::Call), // CALL
        0x52455455524E => Some(Mark::Return), // RETURN
        0x6966 => Some(Mark::IfExpression), // if
        0x616E64 => Some(Mark::And), // and
        0x6F72 => Some(Mark::Or), // or
        0x626F6F6C => Some(Mark::Bool), // bool
        0x696E74 => Some(Mark::Int), // int
        0x766172 => Some(Mark::VarParameter), // var
        0x616472 => Some(Mark::Adr), // adr
        0x766563 => Some(Mark::Vec), // vec
        0x616C6C6F63 => Some(Mark::Alloc), // alloc
        0x6E7468 => Some(Mark::Nth), // nth
        0x6C656E => Some(Mark::Len), // len
        0x76736574 => Some(Mark::Vset), // vset
        _ => None,
    }
}

// A key word's mark. A name has none.
fn key_word(word: &[u8]) -> Option<Mark>
    requires { stretch is_plain word.now ≡ word.now }
    ensures { result ≡ marked (mark_of key_words word.now) }
{
    key_packed(packed(word))
}

// A key word or a name, from its first letter on.
fn spelled_at(text: &[u8], start: usize) -> Word
    requires start_in_bounds { start < length text.now }
    requires start_value { is_letter (get_or text.now start 0) ≡ true }
    ensures { Ok (Some result) ≡ found_from text.now start }
{
    let word = name_at(text, start);
    let end = start + word.len();
    let token = key_word(word).map_or(Token::Name, Token::Mark);
    Word { token, start, end }
}

// A number as it was read from its first byte on.
fn number_found(start: usize, numeral: Option<Numeral>) -> Result<Word, WordError>
    ensures { result ≡ read_found start numeral }
{
    let Numeral { end, value } = numeral.ok_or(WordError::Byte(start))?;
    let number = value.map_err(|_| WordError::Number(start))?;
    Ok(Word {
        token: Token::Number(number),
        start,
        end,
    })
}

// From a `-` on: the arrow, a number, or a byte in no word.
fn minus_at(text: &[u8], start: usize) -> Result<Word, WordError>
    requires start_in_bounds { start < length text.now }
    requires start_value { get_or text.now start 0 ≡ 45 }
    ensures { found_there result ≡ found_from text.now start }
{
    let second = start + 1;
    if text.len() <= second {
        return Err(WordError::Byte(start));
    }
    if text[second] == b'>' {
        return Ok(Word {
            token: Token::Mark(Mark::Arrow),
            start,
            end: start + 2,
        });
    }
    number_found(start, numerals::number_at(text, start))
}

// The word, or the refusal, at a place that has no separator.
fn front_at(text: &[u8], start: usize) -> Result<Word, WordError>
    requires start_in_bounds { start < length text.now }
    requires start_value { is_sep (get_or text.now start 0) ≡ false }
    ensures { found_there result ≡ found_from text.now start }
{
    let b = text[start];
    if b.is_ascii_alphabetic() {
        return Ok(spelled_at(text, start));
    }
    if b.is_ascii_digit() {
        return number_found(start, numerals::number_at(text, start));
    }
    if b == b'-' {
        return minus_at(text, start);
    }
    match symbol(b) {
        Some(mark) => Ok(Word {
            token: Token::Mark(mark),
            start,
            end: start + 1,
        }),
        None => Err(WordError::Byte(start)),
    }
}

// The next word from a place on, past the separators there; none where the text ends before it.
pub fn word_at(text: &[u8], at: usize) -> Result<Option<Word>, WordError>
    ensures { result ≡ found_from text.now at }
{
    let start = stretch_end(text, at, is_separator);
    if text.len() <= start {
        return Ok(None);
    }
    front_at(text, start).map(Some)
}
