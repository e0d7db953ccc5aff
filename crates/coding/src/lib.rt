// The codes of a program's nodes, written once behind its tree words: a number's word, an application's operator, and for a name the place of its binder
// among the names in force. The run reads them instead of the text.

#![tactic(auto)]

ghost use Rattle.std.specs.Prelude.{◌≡◌, ◌<◌, ◌≤◌, get_or, length};
ghost use Rattle.language.specs.Words.{name_at};
ghost use Rattle.language.specs.Numbers.{ranged};
ghost use Rattle.amounts.specs.Amounts.{computed};
ghost use Rattle.nodes.specs.Nodes.{node_at};
ghost use Rattle.nodes.specs.Written.{number_at};
ghost use Rattle.machine.specs.Program.{tree_in};
ghost use Rattle.machine.specs.Codes.{word_of_number, level_among, code_of, operator_at, code_for};
ghost use Rattle.coding.specs.Stack.{own_binder, binder_of, when_last, when_more, Pushed, names_in};
ghost use Rattle.coding.specs.Pen.{stored};
ghost use Rattle.coding.specs.Coding.{script_in, RowCoded, CodesWritten};

use amounts::Amount;
use nodes::{Node, kinds};
use tables::{entry, put};

// A program's tree words; a code for each stands behind them.
const NODES: u64 = 4096;

// A program: its tree words, their codes, and three entries more.
const PROGRAM: usize = 8195;

// As many binders may be in force.
const BINDERS: usize = 4096;

// The code of a name that is not bound.
const NOT_BOUND: u64 = 10;

// A bound name's code is this much more than its place.
const FIRST_BOUND: u64 = 11;

// The names of the operators have their codes from this one on; true and false are before them.
const FIRST_OPERATOR: u64 = 3;

// ---- the program's parts

// The tree is the program's first words.
fn tree(prog: &[u64; PROGRAM]) -> &[u64]
    ensures { result.now ≡ tree_in prog.now }
{
    &prog[..NODES as usize]
}

fn node_in(prog: &[u64; PROGRAM], i: u64) -> Node
    ensures { result ≡ node_at (tree_in prog.now) i }
{
    nodes::node_at(tree(prog), i)
}

// The root's first child. A slice's length is known, so the length of a program is said here.
fn first_command(prog: &[u64; PROGRAM]) -> u64
    ensures value { result ≡ (node_at (tree_in prog.now) 0).child }
    ensures prog_len { length prog.now ≡ 8195 }
{
    nodes::child_at(prog, 0)
}

fn put_code(prog: &mut [u64; PROGRAM], i: u64, code: u64)
    requires { i < 4096 }
    ensures { prog.new ≡ stored prog.old i code }
{
    let at = (NODES + i) as usize;
    prog[at] = code;
}

// ---- the code of a node

// The word of a number that was read.
fn word_of(amount: Amount) -> u64
    ensures { result ≡ word_of_number (computed amount) }
{
    match amount {
        Ok(z) => amounts::to_word(z),
        Err(_) => 0,
    }
}

// The word of the number that stands at `p`.
fn number_code(text: &[u8], p: u64) -> u64
    ensures { result ≡ word_of_number (ranged (number_at text.now p)) }
{
    match numerals::number_at(text, p as usize) {
        Some(numeral) => word_of(numeral.value),
        None => 0,
    }
}

// The place among the names in force of the latest that is the name at `p`.
fn level_of(text: &[u8], prog: &[u64; PROGRAM], scopes: &[u64], depth: u64, p: u64) -> u64
    requires { depth ≤ 4096 }
    ensures { result ≡ level_among (names_in (script_in prog.now text.now) scopes.now depth) (name_at text.now p) }
{
    for place in (0..depth).rev() {
        let binder = entry(scopes, place);
        if nodes::same_name(text, node_in(prog, binder).place, p) {
            return FIRST_BOUND + place;
        }
    }
    NOT_BOUND
}

// The code of the name at `p`: one of the nine has its number, any other its place.
fn name_code(text: &[u8], prog: &[u64; PROGRAM], scopes: &[u64], depth: u64, p: u64) -> u64
    requires { depth ≤ 4096 }
    ensures { result ≡ code_of (names_in (script_in prog.now text.now) scopes.now depth) (name_at text.now p) }
{
    match nodes::meaning_at(text, p) {
        Some(meaning) => meaning.number(),
        None => level_of(text, prog, scopes, depth, p),
    }
}

// The operator that the node `i` is.
// Kept: 0 for none, since that is what the table of codes holds.
fn operator_code(text: &[u8], prog: &[u64; PROGRAM], i: u64) -> u64
    ensures { result ≡ operator_at (script_in prog.now text.now) (node_at (tree_in prog.now) i).kind i }
{
    let head = node_in(prog, i);
    if head.kind != kinds::NAME {
        return 0;
    }
    let Some(meaning) = nodes::meaning_at(text, head.place) else {
        return 0;
    };
    let code = meaning.number();
    if code < FIRST_OPERATOR {
        return 0;
    }
    code
}

// The code of the node `i`, which is `n`, with the names of the stack in force.
fn node_code(text: &[u8], prog: &[u64; PROGRAM], scopes: &[u64], depth: u64, i: u64, n: Node) -> u64
    requires depth_bound { depth ≤ 4096 }
    requires n_value { n ≡ node_at (tree_in prog.now) i }
    ensures { result ≡ code_for (script_in prog.now text.now) n.kind i (names_in (script_in prog.now text.now) scopes.now depth) }
{
    match n.kind {
        kinds::NUMBER => number_code(text, n.place),
        kinds::NAME => name_code(text, prog, scopes, depth, n.place),
        kinds::APPLICATION => operator_code(text, prog, n.child),
        _ => 0,
    }
}

// ---- the names in force: a binder is the node whose name it is

// The own name of a recursive definition, which is in force in its body.
fn own_binder(kind: u64, child: u64) -> Option<u64>
    ensures { result ≡ own_binder kind child }
{
    // Kept: an arm for each kind, since with one or-pattern the proof did not close.
    match kind {
        kinds::FUN_REC => Some(child),
        kinds::PROC_REC => Some(child),
        kinds::FUN_REC_BLOCK => Some(child),
        _ => None,
    }
}

// What a node binds for its siblings: a definition its name, a parameter itself.
fn binder_of(kind: u64, i: u64, child: u64) -> Option<u64>
    ensures { result ≡ binder_of kind i child }
{
    if kind < kinds::CONST {
        return None;
    }
    if kind < kinds::ECHO {
        return Some(child);
    }
    if kind == kinds::PARAMETER {
        return Some(i);
    }
    if kind == kinds::VAR_PARAMETER {
        return Some(i);
    }
    // from here on there are only the two functions with a block
    if kind < kinds::FUN_BLOCK {
        return None;
    }
    Some(child)
}

// A binder that counts for the last node of a row only.
fn when_last(next: u64, binder: Option<u64>) -> Option<u64>
    ensures { result ≡ when_last next binder }
{
    if next == 0 { binder } else { None }
}

// A binder that counts where a sibling follows.
fn when_more(next: u64, binder: Option<u64>) -> Option<u64>
    ensures { result ≡ when_more next binder }
{
    if next == 0 { None } else { binder }
}

// Puts a binder on the stack, if there is one; answers how deep the stack is then.
fn push(scopes: &mut [u64], depth: u64, binder: Option<u64>) -> u64
    requires { depth ≤ 4096 }
    ensures { Pushed scopes.old depth binder scopes.new result }
{
    match binder {
        Some(node) => {
            put(scopes, depth, node);
            depth + 1
        }
        None => depth,
    }
}

// ---- the pass

// Writes the codes of the row from the node `first` on and of all below it, from the code number `from` on; answers the number behind them.
fn code_row(
    text: &[u8],
    prog: &mut [u64; PROGRAM],
    scopes: &mut [u64],
    base: u64,
    own: Option<u64>,
    first: u64,
    from: u64,
) -> u64
    requires base_le_from { base ≤ from }
    requires from_bound { from ≤ 4096 }
    requires first_bound { first < 65536 }
    requires scopes_long { 4096 ≤ length scopes.old }
    ensures { RowCoded text.now prog.old scopes.old base own first from prog.new scopes.new result }
{
    let mut i = first;
    let mut depth = base;
    let mut at = from;
    // Kept: siblings are links in a lent table, and no range of numbers.
    while i != 0 {
        if at >= NODES {
            return at;
        }
        let n = node_in(prog, i);
        let next = n.next;
        let inner = push(scopes, depth, when_last(next, own));
        put_code(prog, at, node_code(text, prog, scopes, inner, i, n));
        at = code_row(
            text,
            prog,
            scopes,
            inner,
            own_binder(n.kind, n.child),
            n.child,
            at + 1,
        );
        depth = push(
            scopes,
            inner,
            when_more(next, binder_of(n.kind, i, n.child)),
        );
        i = next;
    }
    at
}

// Writes the codes of a program whose tree words are there and whose codes are all zero. `scopes` is a working table of at least 4,096 entries, whatever it
// holds; with a shorter one nothing is written.
pub fn write_codes(text: &[u8], prog: &mut [u64; PROGRAM], scopes: &mut [u64])
    ensures { CodesWritten text.now prog.old scopes.old prog.new }
{
    if scopes.len() < BINDERS {
        return;
    }
    let first = first_command(prog);
    put_code(prog, 0, 0);
    code_row(text, prog, scopes, 0, None, first, 1);
}
