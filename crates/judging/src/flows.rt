// What statements and blocks return: the notes of RETURN, of IF and WHILE, of a block, and of a statement that is not the last.
ghost use Rattle.std.specs.Prelude.{◌≡◌, true, ltb, length};
ghost use Rattle.judge.specs.Scopes.{pick};
ghost use Rattle.judge.specs.Rules.{looped_note, either_note, return_rule, followed, goes_with, flow_from, program_rule, block_rule};

use super::rules::REFUSED;
use nodes::{child_at, next_at};
use tables::entry;
use types::{ALWAYS, LEVELS, MAY, REFERENCES, returned_type, same_type};

// What may be returned where `f` is: always becomes may.
#[tactic(auto, using(std::proofs::lemmas::Bool::Decides::nat_tests), unfolding(judge::specs::Rules::looped_note))]
pub fn looped_note(f: u64) -> u64
    ensures { result ≡ looped_note f }
{
    if f < ALWAYS { f } else { f - ALWAYS + MAY }
}

// IF, whose blocks return as `f` and `h` say: it always returns where both do.
#[tactic(auto, using(std::proofs::lemmas::Bool::Decides::nat_tests), unfolding(judge::specs::Rules::either_note))]
pub fn either_note(tree: &[u64], notes: &[u64], f: u64, h: u64) -> u64
    ensures { result ≡ either_note tree.now notes.now f h }
{
    if f < MAY {
        looped_note(h)
    } else if h < MAY {
        looped_note(f)
    } else if !same_type(tree, notes, returned_type(f), returned_type(h), LEVELS) {
        REFUSED
    } else if h < ALWAYS {
        looped_note(f)
    } else {
        f
    }
}

// RETURN: always what the expression `y` has.
#[tactic(auto, using(std::proofs::lemmas::Bool::Decides::nat_tests), unfolding(judge::specs::Rules::return_rule))]
pub fn return_rule(notes: &[u64], y: u64) -> u64
    ensures { result ≡ return_rule notes.now y }
{
    ALWAYS + entry(notes, y) % REFERENCES
}

// The statement `i`, whose own rule gives `own`: what always returns stands last.
#[tactic(auto, using(std::proofs::lemmas::Bool::Decides::nat_tests), unfolding(judge::specs::Rules::followed))]
pub fn last_returns(tree: &[u64], i: u64, own: u64) -> u64
    ensures { result ≡ followed tree.now i own }
{
    if next_at(tree, i) == 0 || own < ALWAYS {
        own
    } else {
        REFUSED
    }
}

// What may be returned so far (0: nothing) goes with what `f` says behind it.
#[tactic(auto, using(std::proofs::lemmas::Bool::Decides::nat_tests), unfolding(judge::specs::Rules::goes_with))]
fn goes_with(tree: &[u64], notes: &[u64], so_far: u64, f: u64) -> bool
    ensures { result ≡ goes_with tree.now notes.now so_far f }
{
    so_far == 0
        || MAY <= f && same_type(tree, notes, returned_type(f), returned_type(so_far), LEVELS)
}

// A command that is not the last, which returns as `f` says: it goes with what may be returned before it, and what may be returned by then.
fn goes_on(tree: &[u64], notes: &[u64], so_far: u64, f: u64) -> bool
    ensures { result ≡ pick (ltb f 196608) (λ _. true) (λ _. goes_with tree.now notes.now so_far f) }
{
    f < MAY || goes_with(tree, notes, so_far, f)
}

fn seen(so_far: u64, f: u64) -> u64
    ensures { result ≡ pick (ltb f 196608) (λ _. so_far) (λ _. f) }
{
    if f < MAY { so_far } else { f }
}

// What the commands from `first` on return: what the last does, and it goes with each that may return before it.
fn flow_from(tree: &[u64], notes: &[u64], first: u64) -> u64
    ensures { result ≡ flow_from tree.now notes.now (length tree.now) 0 first }
{
    let mut y = first;
    let mut so_far: u64 = 0;
    for _step in 0..tree.len() {
        let f = entry(notes, y);
        let v = next_at(tree, y);
        if v == 0 {
            return if goes_with(tree, notes, so_far, f) {
                f
            } else {
                REFUSED
            };
        }
        if !goes_on(tree, notes, so_far, f) {
            return REFUSED;
        }
        so_far = seen(so_far, f);
        y = v;
    }
    REFUSED
}

// The block `i`, which returns as `flow` says: the root never returns.
#[tactic(auto, using(std::proofs::lemmas::Bool::Decides::nat_tests), unfolding(judge::specs::Rules::program_rule))]
fn program_rule(i: u64, flow: u64) -> u64
    ensures { result ≡ program_rule i flow }
{
    if i == 0 && flow >= MAY { REFUSED } else { flow }
}

#[tactic(auto, using(std::proofs::lemmas::Bool::Decides::nat_tests), unfolding(judge::specs::Rules::block_rule))]
pub fn block_rule(tree: &[u64], notes: &[u64], i: u64) -> u64
    ensures { result ≡ block_rule tree.now notes.now i }
{
    program_rule(i, flow_from(tree, notes, child_at(tree, i)))
}
