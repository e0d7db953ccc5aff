// WRITE: the house form of a text, which is refused as CHECK refuses it.

#![tactic(auto)]

ghost use Rattle.std.specs.Prelude.{◌≡◌, ◌≤◌, length};
ghost use Rattle.language.specs.Words.{words_of};
ghost use Rattle.verdict.specs.Answers.{lent};
ghost use Rattle.house_form.specs.House.{house_form_of, Write, write_number, write_place};
ghost use Rattle.writing.specs.Parts.{Readable};
ghost use Rattle.writing.specs.Pages.{put_of, page_after};
ghost use Rattle.writer.specs.declared.WriteError.TheVariants.{Refused};
ghost use Rattle.writer.specs.Answers.{meant, bytes_of, put_as, written};

use verdict::{Refusal, check};
use writing::put_form;

// There is no room for the form; or the text is refused as CHECK refuses it.
#[derive(Clone, Copy, Debug, PartialEq, Eq)]
pub enum WriteError {
    Room,
    Refused(Refusal),
}

impl From<Refusal> for WriteError {
    ghost from_gives = { λ refusal error. error ≡ Refused refusal };

    fn from(refusal: Refusal) -> Self {
        WriteError::Refused(refusal)
    }
}

// How many bytes were written, or why none were.
pub type Wrote = Result<u64, WriteError>;

// The form of an accepted text.
fn write_accepted(text: &[u8], page: &mut [u8]) -> Wrote
    requires { (length text.now ≤ 65536) × Readable (words_of text.now) }
    ensures { (result ≡ put_as (put_of (house_form_of text.now) page.old))
        × (page.new ≡ page_after (house_form_of text.now) page.old) }
{
    let bytes = put_form(text, page).ok_or(WriteError::Room)?;
    Ok(bytes as u64)
}

// Writes the house form of a text to the page. What is refused leaves the page as it was, and what is written leaves its rest so;
// the other tables are as CHECK leaves them, also where there is no room.
// Kept: the tables come one by one, as `check` takes them.
pub fn write(
    text: &[u8],
    tree: &mut [u64],
    words: &mut [u64],
    stack: &mut [u64],
    scopes: &mut [u64],
    notes: &mut [u64],
    page: &mut [u8],
) -> Wrote
    ensures { Write text.now tree.old (lent words.old stack.old scopes.old notes.old)
        page.old (written result tree.new words.new stack.new scopes.new notes.new page.new) }
{
    check(text, tree, words, stack, scopes, notes)?;
    write_accepted(text, page)
}

// The number of ROOM, which is request 3's.
const ROOM: u64 = 30;

// The answers' numbers in document 01.
pub fn number_of(wrote: Wrote) -> u64
    ensures { result ≡ write_number (meant wrote) }
{
    match wrote {
        Ok(_) => 0,
        Err(WriteError::Refused(refusal)) => refusal.number(),
        Err(WriteError::Room) => ROOM,
    }
}

// An answer's place, and 0 where it has none.
pub fn place_of(wrote: Wrote) -> u64
    ensures { result ≡ write_place (meant wrote) }
{
    match wrote {
        Err(WriteError::Refused(refusal)) => refusal.place(),
        _ => 0,
    }
}

// How many bytes were written: none after a refusal.
pub fn bytes_of(wrote: Wrote) -> u64
    ensures { result ≡ bytes_of wrote }
{
    wrote.unwrap_or(0)
}
