// The house form of a text: its words, each from its own bytes, with a space between them. One loop counts its bytes, another writes them.

#![tactic(auto)]

ghost use Rattle.std.specs.Prelude.{◌≡◌, ◌++◌, ◌+◌, ◌<◌, ◌≤◌, length, drop};
ghost use Rattle.std.proofs.lemmas.List.Edits.{sets};
ghost use Rattle.language.specs.Words.{words_of};
ghost use Rattle.words.specs.Next.{found_from};
ghost use Rattle.house_form.specs.House.{house_form_of};
ghost use Rattle.writing.specs.Pieces.{zeros, skipped_behind, skipped, sign_kept, sign, gap, piece};
ghost use Rattle.writing.specs.Pages.{put_of, page_after};
ghost use Rattle.writing.specs.Parts.{word_in, Readable};

use words::Word;

// How many zeros stand before a number's digits. The last digit is none of them.
fn zeros_before(digits: &[u8]) -> usize
    ensures { result ≡ zeros digits.now }
{
    let last = digits.len().saturating_sub(1);
    digits[..last].iter().take_while(|b| **b == b'0').count()
}

// Behind a `-`: the sign itself and the zeros of a number are not copied. The arrow is copied whole.
fn skipped_behind(rest: &[u8]) -> usize
    ensures { result ≡ skipped_behind rest.now }
{
    match rest.first() {
        Some(b) if b.is_ascii_digit() => zeros_before(rest) + 1,
        _ => 0,
    }
}

// How many of a word's first bytes are not copied.
fn skipped_of(word: &[u8]) -> usize
    ensures { result ≡ skipped word.now }
{
    match word.first() {
        Some(b) if b.is_ascii_digit() => zeros_before(word),
        Some(b'-') => skipped_behind(&word[1..]),
        _ => 0,
    }
}

// Whether a `-` is written before the bytes that are copied from `from` on: no 0 has one.
fn keeps_sign(word: &[u8], from: usize) -> bool
    requires { from < length word.now }
    ensures { result ≡ sign_kept word.now from }
{
    from != 0 && word[0] == b'-' && word[from] != b'0'
}

// The next word from a place on, where there is one.
fn next_word(text: &[u8], at: usize) -> Option<Word>
    ensures { result ≡ word_in (found_from text.now at) }
{
    words::word_at(text, at).unwrap_or(None)
}

// How many bytes are written with the space that stands behind n of them.
fn past_gap(n: usize) -> usize
    requires { n ≤ 131072 }
    ensures { result ≡ n + length (gap n) }
{
    if n == 0 { 0 } else { n + 1 }
}

fn past_sign(n: usize, minus: bool) -> usize
    requires { n ≤ 131073 }
    ensures { result ≡ n + length (sign minus) }
{
    if minus { n + 1 } else { n }
}

// How many bytes are written with a word behind n of them.
fn past_word(word: &[u8], n: usize) -> usize
    requires { (n ≤ 131072) × (length word.now ≤ 65536) × (0 < length word.now) }
    ensures { result ≡ n + length (piece n word.now) }
{
    let from = skipped_of(word);
    let minus = keeps_sign(word, from);
    past_sign(past_gap(n), minus) + (word.len() - from)
}

// A space is written behind n bytes, and none before the first.
fn put_gap(page: &mut [u8], n: usize) -> usize
    requires { n < length page.old }
    ensures { (result ≡ n + length (gap n)) × (page.new ≡ sets page.old n (gap n)) }
{
    if n == 0 {
        return 0;
    }
    page[n] = b' ';
    n + 1
}

fn put_sign(page: &mut [u8], n: usize, minus: bool) -> usize
    requires { n < length page.old }
    ensures { (result ≡ n + length (sign minus)) × (page.new ≡ sets page.old n (sign minus)) }
{
    if minus {
        page[n] = b'-';
        return n + 1;
    }
    n
}

// Copies bytes to the page from its byte n on.
fn copy(bytes: &[u8], page: &mut [u8], n: usize) -> usize
    requires { n + length bytes.now ≤ length page.old }
    ensures { (result ≡ n + length bytes.now) × (page.new ≡ sets page.old n bytes.now) }
{
    let end = n + bytes.len();
    page[n..end].copy_from_slice(bytes);
    end
}

// A word is written behind n bytes.
fn put_word(word: &[u8], page: &mut [u8], n: usize) -> usize
    requires { (0 < length word.now) × (n + length (piece n word.now) ≤ length page.old) }
    ensures { (result ≡ n + length (piece n word.now)) × (page.new ≡ sets page.old n (piece n word.now)) }
{
    let from = skipped_of(word);
    let minus = keeps_sign(word, from);
    let m = put_gap(page, n);
    let k = put_sign(page, m, minus);
    copy(&word[from..], page, k)
}

// How many bytes the form of a text has.
pub fn form_length(text: &[u8]) -> usize
    requires { (length text.now ≤ 65536) × Readable (words_of text.now) }
    ensures { result ≡ length (house_form_of text.now) }
{
    let mut at: usize = 0;
    let mut n: usize = 0;
    while let Some(word) = next_word(text, at) {
        n = past_word(&text[word.start..word.end], n);
        at = word.end;
    }
    n
}

// Writes the form of a text, for which the page has room; the rest of the page is not touched.
pub fn write_form(text: &[u8], page: &mut [u8])
    requires { Readable (words_of text.now) × (length (house_form_of text.now) ≤ length page.old) }
    ensures { page.new ≡ house_form_of text.now ++ drop (length (house_form_of text.now)) page.old }
{
    let mut at: usize = 0;
    let mut n: usize = 0;
    while let Some(word) = next_word(text, at) {
        n = put_word(&text[word.start..word.end], page, n);
        at = word.end;
    }
}

// Writes the form of a text, and says how many bytes it has; without room for it the page is not touched.
pub fn put_form(text: &[u8], page: &mut [u8]) -> Option<usize>
    requires { (length text.now ≤ 65536) × Readable (words_of text.now) }
    ensures { (result ≡ put_of (house_form_of text.now) page.old) × (page.new ≡ page_after (house_form_of text.now) page.old) }
{
    let n = form_length(text);
    if page.len() < n {
        return None;
    }
    write_form(text, page);
    Some(n)
}
