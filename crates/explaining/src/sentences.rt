// The answers' names, and a sentence for each that tells a tariff's author what to change.
use super::{Place, say_rows};
use answers::Answer;
use reader::Reader;
use runner::Limits;
use std::io;
use std::io::Write;
use words::{Mark, Token, Word, WordError};

// The most words of a script.
const MOST_WORDS: usize = 4096;

// What a definition's name may break.
const NINE: &str = "the name may not be true, false, not, eq, lt, add, sub, mul or div";

pub fn name(answer: Answer) -> &'static str {
    match answer {
        Answer::Done => "DONE",
        Answer::Length => "LENGTH",
        Answer::Limit => "LIMIT",
        Answer::Table => "TABLE",
        Answer::Byte(_) => "BYTE",
        Answer::Number(_) => "NUMBER",
        Answer::Tokens(_) => "TOKENS",
        Answer::Syntax(_) => "SYNTAX",
        Answer::Level(_) => "LEVEL",
        Answer::Type(_) => "TYPE",
        Answer::Double(_) => "DOUBLE",
        Answer::Fuel(_) => "FUEL",
        Answer::Depth(_) => "DEPTH",
        Answer::Cells(_) => "CELLS",
        Answer::Bindings(_) => "BINDINGS",
        Answer::Output(_) => "OUTPUT",
        Answer::Range(_) => "RANGE",
        Answer::Zero(_) => "ZERO",
        Answer::Unset(_, _) => "UNSET",
        Answer::Size(_) => "SIZE",
        Answer::Index(_) => "INDEX",
    }
}

// The symbol or the key word that was found: none for any other word, and where there is no word.
fn mark_of(found: Result<Option<Word>, WordError>) -> Option<Mark> {
    let word = found.ok()??;
    match word.token {
        Token::Mark(mark) => Some(mark),
        Token::Number(_) | Token::Name => None,
    }
}

fn mark_at(text: &[u8], place: usize) -> Option<Mark> {
    mark_of(Reader::open(text, place).next())
}

// At the text's end something is missing; anywhere else a word does not fit.
fn syntax(text: &[u8], place: usize) -> &'static str {
    if text.len() <= place {
        return "the text ends before the program does: add what is missing, often a ] or a )";
    }
    match mark_at(text, place) {
        Some(Mark::Vec | Mark::Alloc | Mark::Nth | Mark::Len | Mark::Vset) => {
            "this word is no name: vec begins a type, and alloc, nth, len and vset an expression, each right behind its ("
        }
        Some(Mark::Return) => "this word is no name: RETURN and a value stand last in a block",
        _ => {
            "no program goes on with this word: look before it for a ; or a bracket that is missing or too many;\n\
             a block ends with ECHO, SET, IF, WHILE, CALL or RETURN, not with a definition; nothing follows RETURN in its block,\n\
             and nothing the last ]"
        }
    }
}

// What a parenthesis opens is told by the word behind it.
fn type_inside(next: Option<Mark>) -> &'static str {
    match next {
        Some(Mark::IfExpression) =>
            "(if a b c) needs a bool first, and then two values of one type",
        Some(Mark::And) => "(and a b) needs two bools",
        Some(Mark::Or) => "(or a b) needs two bools",
        Some(Mark::Adr) => "(adr x) needs a name that is a VAR or a var parameter here",
        Some(Mark::Vec) => {
            "the T of (vec T) must be bool, int or a vec: no function fits in a cell"
        }
        Some(Mark::Alloc) => {
            "the T of (alloc T n) must be bool, int or a vec: no function fits in a cell;\n\
             and n, the block's size, must be an int"
        }
        Some(Mark::Nth) => "(nth b i) needs a block of cells first, and then an int",
        Some(Mark::Len) => "(len b) needs a block of cells",
        Some(Mark::Vset) => {
            "(vset b i e) needs a block of cells first, then an int,\n\
             and then a value of the type that the block's cells have"
        }
        _ => {
            "what stands first must be a function or an operator,\n\
             with as many values behind it as it takes, each of the type that it takes there"
        }
    }
}

// Whether the body of a function is a block: behind an abstraction's [ stands a name.
fn opens_block(text: &[u8], place: usize) -> bool {
    let words = reader::two_words(text, place);
    mark_of(words.first) == Some(Mark::ListStart) && mark_of(words.second).is_some()
}

// Whether the body of the function at `place` is a block: its parameters end at the first ], for types have none.
fn has_block(text: &[u8], place: usize) -> bool {
    let mut reader = Reader::open(text, place);
    for _ in 0..MOST_WORDS {
        if mark_of(reader.next()) == Some(Mark::ListEnd) {
            return opens_block(text, reader.at);
        }
    }
    false
}

fn say_type_of_function(out: &mut impl Write, text: &[u8], place: usize) -> io::Result<()> {
    if has_block(text, place) {
        write!(
            out,
            "this function may end without RETURN, or its RETURN gives a value of another type than is written behind its name:\n\
             let its block end with RETURN, or with an IF whose two blocks do;\n\
             {NINE}"
        )
    } else {
        write!(
            out,
            "the body must be of the type that is written behind the function's name;\n\
             {NINE}"
        )
    }
}

// The program's block is the first word of its text.
fn type_of_block(text: &[u8], place: usize) -> &'static str {
    match Reader::open(text, 0).next() {
        Ok(Some(word)) if word.start == place => {
            "the program may not RETURN: only a function's block may"
        }
        _ => {
            "a statement of this block may RETURN and may not, so what follows it must RETURN too,\n\
             a value of the same type, up to the block's end"
        }
    }
}

// A word that is no symbol and no key word. A parameter's name is the only one with a colon behind it.
fn say_type_of_name(out: &mut impl Write, next: Option<Mark>) -> io::Result<()> {
    match next {
        Some(Mark::Colon) => write!(out, "a var parameter must be a bool or an int;\n{NINE}"),
        _ => write!(
            out,
            "this name has no value here: define it before it is used;\n\
             a procedure stands only after CALL, and an operator such as add only first in its parentheses"
        ),
    }
}

// A statement, a definition or a block.
fn say_type_at(
    out: &mut impl Write,
    text: &[u8],
    place: usize,
    first: Mark,
    next: Option<Mark>,
) -> io::Result<()> {
    match first {
        Mark::Open => write!(out, "{}", type_inside(next)),
        Mark::Const => write!(
            out,
            "the value must be of the type that is written before it;\n{NINE}"
        ),
        Mark::Fun => say_type_of_function(out, text, place),
        Mark::Var => write!(out, "a variable must be a bool or an int;\n{NINE}"),
        Mark::Proc => write!(
            out,
            "a procedure may not RETURN: define a function by FUN where a value is to come back;\n{NINE}"
        ),
        Mark::Echo => write!(out, "ECHO needs an int, and this is none"),
        Mark::Set => write!(
            out,
            "SET needs a name that is a VAR or a var parameter here, and a value of its type"
        ),
        Mark::IfStatement => write!(
            out,
            "IF needs a bool before its two blocks;\n\
             its two blocks may not RETURN values of two types;\n\
             and nothing may stand behind an IF whose two blocks always RETURN: it would never be run"
        ),
        Mark::ListStart => write!(out, "{}", type_of_block(text, place)),
        Mark::While => write!(out, "WHILE needs a bool before its block"),
        Mark::Call => write!(
            out,
            "CALL needs a procedure that is defined before, and an argument of the right type for each of its parameters:\n\
             (adr x) for a var parameter, a value for any other"
        ),
        _ => write!(out, "the types do not fit here"),
    }
}

// The first word of a node tells its rule.
fn say_type(out: &mut impl Write, text: &[u8], place: usize) -> io::Result<()> {
    let words = reader::two_words(text, place);
    let next = mark_of(words.second);
    match mark_of(words.first) {
        None => say_type_of_name(out, next),
        Some(first) => say_type_at(out, text, place, first, next),
    }
}

// The parameter named like the one at `place` and before it in its list, which begins at the last [ before `place`: types have no names and no [.
fn earlier_of(text: &[u8], place: usize) -> usize {
    let name = words::name_at(text, place);
    let mut earlier = place;
    let mut reader = Reader::open(text, 0);
    for _ in 0..MOST_WORDS {
        let Ok(Some(word)) = reader.next() else {
            return earlier;
        };
        if place <= word.start {
            return earlier;
        }
        if word.token == Token::Mark(Mark::ListStart) {
            earlier = place;
        } else if words::name_at(text, word.start) == name {
            earlier = word.start;
        }
    }
    earlier
}

fn say_double(out: &mut impl Write, text: &[u8], place: usize) -> io::Result<()> {
    let earlier = Place::find(text, earlier_of(text, place));
    write!(
        out,
        "this parameter has the name of an earlier one in its list, at {earlier}:\n\
         give one of the two another name"
    )
}

// A VAR takes one cell, an alloc all of its block's.
fn say_cells(out: &mut impl Write, text: &[u8], place: usize, cells: u64) -> io::Result<()> {
    match mark_at(text, place) {
        Some(Mark::Open) => write!(
            out,
            "too few cells are left for this block: the run was given {cells}, and gives none back;\n\
             make it outside the loop or the procedure, once, or make it smaller"
        ),
        _ => write!(
            out,
            "no cell is left for this VAR: the run was given {cells}, and gives none back;\n\
             define it outside the loop or the procedure, once"
        ),
    }
}

// A variable is read by its name, a block's element by an nth.
fn unset(text: &[u8], place: usize) -> &'static str {
    match mark_at(text, place) {
        Some(Mark::Open) => {
            "this element has no value yet: store one with vset before it is read;\n\
             its block was made"
        }
        _ => {
            "this variable has no value yet: SET it before it is read;\n\
             it was made"
        }
    }
}

// Then where it was made, which may be far from there.
fn say_unset(out: &mut impl Write, text: &[u8], place: usize, made: usize) -> io::Result<()> {
    let sentence = unset(text, place);
    write!(out, "{sentence} at {}", Place::find(text, made))?;
    say_rows(out, text, made)
}

pub fn say_sentence(
    out: &mut impl Write,
    text: &[u8],
    limits: Limits,
    answer: Answer,
) -> io::Result<()> {
    let place = answers::place_of(answer) as usize;
    let Limits {
        fuel,
        depth,
        bindings,
        cells,
        output,
    } = limits;
    match answer {
        Answer::Done => write!(out, "the run is done"),
        Answer::Length => write!(
            out,
            "the text is longer than 16,384 bytes, the most that a script may have: shorten it"
        ),
        Answer::Limit => write!(
            out,
            "a limit is beyond its greatest: fuel 1,000,000, depth 200, bindings, cells and output 4,096 each"
        ),
        Answer::Table => write!(
            out,
            "a table that the gateway lends is too small: the script is not at fault"
        ),
        Answer::Byte(_) => write!(
            out,
            "this byte is in no word: a script has names of letters and digits, numbers and the symbols [ ] ( ) ; : , * ->,\n\
             with spaces, tabs and line ends between them; a - stands right before its digits, and there are no comments"
        ),
        Answer::Number(_) => write!(
            out,
            "this number is outside the range: write one from -9223372036854775808 to 9223372036854775807"
        ),
        Answer::Tokens(_) => write!(
            out,
            "this is word 4,097, counting names, numbers, key words and symbols: a script has at most 4,096, so shorten it"
        ),
        Answer::Syntax(_) => write!(out, "{}", syntax(text, place)),
        Answer::Level(_) => write!(
            out,
            "this opens a 65th level: blocks, parentheses, abstractions, function types and vecs stand at most 64 deep;\n\
             take an inner part out and give it a name"
        ),
        Answer::Type(_) => say_type(out, text, place),
        Answer::Double(_) => say_double(out, text, place),
        Answer::Fuel(_) => write!(
            out,
            "no unit of fuel is left to enter this: the run was given {fuel};\n\
             a loop or a recursion may have no end, or the script must do less"
        ),
        Answer::Depth(_) => write!(
            out,
            "this stands too deep: as many others are entered and not ended as the run allows, {depth};\n\
             let the recursion go less deep, or count in a WHILE"
        ),
        Answer::Cells(_) => say_cells(out, text, place, cells),
        Answer::Bindings(_) => write!(
            out,
            "too few bindings are left for the names made here: the run was given {bindings}, and gives none back;\n\
             define outside the loop, or call less often"
        ),
        Answer::Output(_) => write!(
            out,
            "no room is left for another number: the run was given room for {output}; let it ECHO fewer"
        ),
        Answer::Range(_) => write!(
            out,
            "the result is outside the range from -9223372036854775808 to 9223372036854775807: compute with smaller numbers"
        ),
        Answer::Zero(_) => write!(out, "this divides by 0: test the divisor first"),
        Answer::Unset(_, made) => say_unset(out, text, place, made as usize),
        Answer::Size(_) => write!(out, "a block's size is below 0 here: test it first"),
        Answer::Index(_) => write!(
            out,
            "the block has no element with this index: they go from 0 to one below its len"
        ),
    }
}
