// The grammar's rules as a table.

ghost use Rattle.std.specs.Prelude.{◌≡◌, ◌-◌, ◌<◌, take, drop};
ghost use Rattle.parsing.specs.Steps.{act_in, kind_in, how_in, push_in, beside_in, found, rule_in};

use crate::PLACES;
use crate::stack::symbol_in;

// What a rule writes: nothing, a node without children or with children, another kind for the last node; or the first command of a function's block.
#[derive(Clone, Copy)]
pub enum Act {
    Skip,
    Leaf,
    Fork,
    Turn,
    Lead,
}

// How a rule pushes: with no sibling before (Kid), and a level deeper (Deep); with the sibling before that the word's own entry has (Same), and outside the
// CALL or the function that this stands in (Body); with that CALL or function as the sibling before (Back); or within the new node, which is one (Call).
#[derive(Clone, Copy)]
pub enum How {
    Kid,
    Deep,
    Same,
    Body,
    Back,
    Call,
}

// The symbol that a rule pushes, and how.
#[derive(Clone, Copy)]
pub struct Push {
    pub how: How,
    pub symbol: u64,
}

// A rule, without the kind of word that it is for.
#[derive(Clone, Copy)]
pub struct Rule {
    bits: u64,
}

// Where the parts of a rule begin in its number: the kind of word (7 bits), what such a word writes (3 bits) and the kind of node (5 bits), how it pushes
// (3 bits) and which symbol (6 bits), whether one comes beside the new node, and which (6 bits). The last bit is always 1.
// Kept: a rule of the table is one number, as `rule_list` of specs/Codes has it; `Rule` reads it.
const WORD: u64 = 1 << 25;

const ACT: u64 = 1 << 22;

const KIND: u64 = 1 << 17;

const HOW: u64 = 1 << 14;

const PUSHED: u64 = 1 << 8;

const FLAG: u64 = 1 << 7;

const BESIDE: u64 = 1 << 1;

const SYMBOLS: u64 = 64;

impl Rule {
    pub fn act(self) -> Act
        ensures { result ≡ act_in self }
    {
        match self.bits / ACT % 8 {
            0 => Act::Skip,
            1 => Act::Leaf,
            3 => Act::Turn,
            4 => Act::Lead,
            _ => Act::Fork,
        }
    }

    // The kind of node that it writes.
    pub fn kind(self) -> u64
        ensures kind { result ≡ kind_in self }
        ensures small { result < 32 }
    {
        self.bits / KIND % 32
    }

    pub fn how(self) -> Option<How>
        ensures { result ≡ how_in self }
    {
        match self.bits / HOW % 8 {
            1 => Some(How::Kid),
            2 => Some(How::Deep),
            3 => Some(How::Same),
            4 => Some(How::Body),
            5 => Some(How::Back),
            6 => Some(How::Call),
            _ => None,
        }
    }

    pub fn push(self) -> Option<Push>
        ensures { result ≡ push_in self }
    {
        let how = self.how()?;
        let symbol = self.bits / PUSHED % SYMBOLS;
        Some(Push { how, symbol })
    }

    // The symbol that comes beside the new node.
    pub fn beside(self) -> Option<u64>
        ensures { result ≡ beside_in self }
    {
        if self.bits / FLAG % 2 == 0 {
            return None;
        }
        Some(self.bits / BESIDE % SYMBOLS)
    }
}

// The rules of each symbol of the grammar's machine, the kind of word in the first seven bits: what such a word writes and pushes where the symbol stands.
pub const RULES: [u32; 147] = [
    // a block
    0x02828101,
    // a command
    0x14844487, 0x16878787, 0x1A8A4F87, 0x1C8C5087, 0x1E904685, 0x20925685, 0x22945785, 0x24965985,
    0x26999A01, 0x44BE46DF,
    // after a statement
    0x0A010101, 0x04000001,
    // after a definition
    0x0A010101,
    // a constant's name
    0x3866008B,
    // its type
    0x2E5E008D, 0x3060008D, 0x06A2A98D,
    // an expression
    0x36640001, 0x38660001, 0x06AE9D01, 0x02B08B01,
    // REC or a function's name
    0x38660093, 0x18C8C801,
    // a recursive function's name
    0x38660093,
    // a function's type
    0x2E5E0095, 0x30600095, 0x06A2A995,
    // the bracket of its parameters
    0x0200EB01,
    // a parameter of an abstraction
    0x389A4D99,
    // after it: another, or the body
    0x0E00CB01, 0x0400C601,
    // a parameter's colon
    0x0C00CE01,
    // a type
    0x2E5E0001, 0x30600001, 0x06A2A901,
    // a variable's name
    0x3866009D,
    // REC or a procedure's name
    0x386600A5, 0x18CED101,
    // a recursive procedure's name
    0x386600A5,
    // the bracket of its parameters
    0x0200D301,
    // a parameter of a procedure
    0x389A4DA9, 0x3200D5A9,
    // after it: another, or the block
    0x0E00D301, 0x0400C001,
    // a var parameter's name
    0x389C4D01,
    // a SET's name
    0x3866008D,
    // an IF's condition
    0x366400B1, 0x386600B1, 0x06AE9DB1, 0x02B08BB1,
    // its first block
    0x02828181,
    // a WHILE's condition
    0x36640081, 0x38660081, 0x06AE9D81, 0x02B08B81,
    // a CALL's name
    0x386600B7,
    // its first argument
    0x366400B9, 0x386600B9, 0x06AE9EB9, 0x02B08BB9,
    // a further argument, or its end
    0x366400B9, 0x386600B9, 0x06AE9EB9, 0x02B08BB9, 0x0A014101, 0x04000001,
    // in an expression after its parenthesis
    0x366400C7, 0x386600C7, 0x06AE9DC7, 0x02B08BC7, 0x28E8DF01, 0x2AEAE001, 0x2CECE001, 0x3CF6EA01,
    0x3EF8E001, 0x40FAE101, 0x42FCDF01,
    // the same of an argument, which may be adr
    0x366400C7, 0x386600C7, 0x06AE9DC7, 0x02B08BC7, 0x34F2E501, 0x28E8DF01, 0x2AEAE001, 0x2CECE001,
    0x3CF6EA01, 0x3EF8E001, 0x40FAE101, 0x42FCDF01,
    // three expressions
    0x366400C1, 0x386600C1, 0x06AE9DC1, 0x02B08BC1,
    // two expressions
    0x366400C3, 0x386600C3, 0x06AE9DC3, 0x02B08BC3,
    // one expression, and the parenthesis
    0x366400C5, 0x386600C5, 0x06AE9DC5, 0x02B08BC5,
    // a closing parenthesis
    0x08000001,
    // an application's first argument
    0x366400C9, 0x386600C9, 0x06AE9DC9, 0x02B08BC9,
    // a further one, or its end
    0x366400C9, 0x386600C9, 0x06AE9DC9, 0x02B08BC9, 0x08000001,
    // adr's name
    0x386600C5,
    // a further type of a function type
    0x2E5E00CF, 0x306000CF, 0x06A2A9CF,
    // after it: another, or the arrow
    0x1000E601, 0x1200E801,
    // its result, or what a vec is of
    0x2E5E00C5, 0x306000C5, 0x06A2A9C5,
    // in a type after its parenthesis: a type, or vec
    0x2E5E00CF, 0x306000CF, 0x06A2A9CF, 0x3AF4E801,
    // an alloc's type
    0x2E5E00C3, 0x306000C3, 0x06A2A9C3,
    // a parameter of a function
    0x389A4DD9,
    // after it: another, or the body
    0x0E00EB01, 0x0400ED01,
    // a function's body
    0x36640001, 0x38660001, 0x06AE9D01, 0x02B0AE01,
    // in a function's body after its bracket: a parameter, or a command
    0x389A4D99, 0x15044487, 0x17078787, 0x1B0A4F87, 0x1D0C5087, 0x1F104685, 0x21125685, 0x23145785,
    0x25165985, 0x27199A01, 0x453E46DF,
    // after RETURN's expression
    0x04000001,
];

// Where each symbol's rules start, and where the last one's end.
pub const STARTS: [u8; 49] = [
    0, 1, 11, 13, 14, 15, 18, 22, 24, 25, 28, 29, 30, 32, 33, 36, 37, 39, 40, 41, 43, 45, 46, 47,
    51, 52, 56, 57, 61, 67, 78, 90, 94, 98, 102, 103, 107, 112, 113, 116, 118, 121, 125, 128, 129,
    131, 135, 146, 147,
];

// The first of some rules for a kind of word.
fn find(rules: &[u32], kind: u64) -> Option<Rule>
    ensures { result ≡ found kind rules.now }
{
    for packed in rules {
        let packed = *packed as u64;
        if kind == packed / WORD {
            return Some(Rule {
                bits: packed % WORD,
            });
        }
    }
    None
}

// The rules from one place of the table up to another, as far as the table goes.
fn between(rules: &[u32], from: usize, to: usize) -> &[u32]
    ensures { result.now ≡ take (to - from) (drop from rules.now) }
{
    let end = to.min(rules.len());
    let start = from.min(end);
    &rules[start..end]
}

// The rule for the entry `w` of the stack and the word `x`, by the tables `RULES` and `STARTS` that it is lent.
pub fn rule_for(rules: &[u32], starts: &[u8], w: u64, x: u64) -> Option<Rule>
    ensures { result ≡ rule_in rules.now starts.now w x }
{
    let symbol = symbol_in(w) as usize;
    if starts.len() <= symbol + 1 {
        return None;
    }
    let from = starts[symbol] as usize;
    let to = starts[symbol + 1] as usize;
    find(between(rules, from, to), x / PLACES)
}
