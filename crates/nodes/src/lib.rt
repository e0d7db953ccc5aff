// The tree table read node by node, and the names that its places point to: any words and any text, of any length, are read without a refusal.

#![tactic(auto)]

pub mod kinds; // kinds.rt: the kinds of nodes, by name

ghost use Rattle.std.specs.Prelude.{◌≡◌, IfSome, IsNone, slice_index};
ghost use Rattle.language.specs.Bytes.{same_bytes};
ghost use Rattle.language.specs.Words.{name_at};
ghost use Rattle.language.specs.Names.{meaning};
ghost use Rattle.nodes.specs.Nodes.{node_at, some_node};
ghost use Rattle.nodes.specs.Names.{meaning_no};
ghost use Rattle.nodes.specs.Meanings.{number, number_or_zero, written, BeginsNone};

use tables::entry;

// A word's four fields have 16 bits each: a field is what is above the ones below it, cut to its size.
const FIELD: u64 = 65536;

const ABOVE_CHILD: u64 = 4294967296;

const ABOVE_PLACE: u64 = 281474976710656;

// A node's kind, its place in the text, and the numbers of its first child and next sibling (0: none).
#[derive(Clone, Copy, Debug, PartialEq, Eq)]
pub struct Node {
    pub kind: u64,
    pub place: u64,
    pub child: u64,
    pub next: u64,
}

pub fn node_at(tree: &[u64], i: u64) -> Node
    ensures { result ≡ node_at tree.now i }
{
    let word = entry(tree, i);
    Node {
        kind: word / ABOVE_PLACE,
        place: word / ABOVE_CHILD % FIELD,
        child: word / FIELD % FIELD,
        next: word % FIELD,
    }
}

// A node by its number, as links and tables have it: 0 stands for none.
pub fn some_node(i: u64) -> Option<u64>
    ensures { result ≡ some_node i }
{
    (i != 0).then_some(i)
}

pub fn kind_at(tree: &[u64], i: u64) -> u64
    ensures { result ≡ (node_at tree.now i).kind }
{
    node_at(tree, i).kind
}

pub fn place_at(tree: &[u64], i: u64) -> u64
    ensures { result ≡ (node_at tree.now i).place }
{
    node_at(tree, i).place
}

pub fn child_at(tree: &[u64], i: u64) -> u64
    ensures { result ≡ (node_at tree.now i).child }
{
    node_at(tree, i).child
}

pub fn next_at(tree: &[u64], i: u64) -> u64
    ensures { result ≡ (node_at tree.now i).next }
{
    node_at(tree, i).next
}

// Have the names at the places `p` and `q` the same bytes?
pub fn same_name(text: &[u8], p: u64, q: u64) -> bool
    ensures { result ≡ same_bytes (name_at text.now p) (name_at text.now q) }
{
    words::name_at(text, p as usize) == words::name_at(text, q as usize)
}

// What a name is that cannot be bound: one of the nine, by the number that the language gives it.
#[derive(Clone, Copy, Debug, PartialEq, Eq)]
pub enum Meaning {
    True = 1,
    False = 2,
    Not = 3,
    Eq = 4,
    Lt = 5,
    Add = 6,
    Sub = 7,
    Mul = 8,
    Div = 9,
}

impl Meaning {
    pub fn number(self) -> u64
        ensures { result ≡ number self }
    {
        self as u64
    }

    // How a text writes it.
    fn bytes(self) -> &'static [u8]
        ensures { result.now ≡ written self }
    {
        match self {
            Meaning::True => b"true",
            Meaning::False => b"false",
            Meaning::Not => b"not",
            Meaning::Eq => b"eq",
            Meaning::Lt => b"lt",
            Meaning::Add => b"add",
            Meaning::Sub => b"sub",
            Meaning::Mul => b"mul",
            Meaning::Div => b"div",
        }
    }
}

// The only one of the nine that begins with the byte, if one does.
fn beginning(byte: u8) -> Option<Meaning>
    ensures some { IfSome result (λ m. slice_index (written m) 0 ≡ byte) }
    ensures none { IsNone result → BeginsNone byte }
{
    match byte {
        b't' => Some(Meaning::True),
        b'f' => Some(Meaning::False),
        b'n' => Some(Meaning::Not),
        b'e' => Some(Meaning::Eq),
        b'l' => Some(Meaning::Lt),
        b'a' => Some(Meaning::Add),
        b's' => Some(Meaning::Sub),
        b'm' => Some(Meaning::Mul),
        b'd' => Some(Meaning::Div),
        _ => None,
    }
}

// Which of the nine names these bytes are, if they are one. No two of them begin alike, so that one is compared at most.
fn meaning_of(name: &[u8]) -> Option<Meaning>
    ensures { number_or_zero result ≡ meaning_no (meaning name.now) }
{
    let meaning = beginning(*name.first()?)?;
    (meaning.bytes() == name).then_some(meaning)
}

// Which of the nine names stands at the place `p`, if one does.
pub fn meaning_at(text: &[u8], p: u64) -> Option<Meaning>
    ensures { number_or_zero result ≡ meaning_no (meaning (name_at text.now p)) }
{
    meaning_of(words::name_at(text, p as usize))
}
