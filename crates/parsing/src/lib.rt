// The grammar's machine: a word at a time, the stack says which words may come, and the tree grows with each.

#![tactic(auto)]

ghost use Rattle.std.specs.Prelude.{◌≡◌, ◌<◌, ◌≤◌, drop, length};
ghost use Rattle.parsing.specs.Steps.{run, too_deep};
ghost use Rattle.parsing.specs.Outcomes.{ending};

use crate::stack as entries;

mod nodes;
mod rules;
mod stack;

// Why there is no tree, and the place: a word that the grammar does not allow there, or a level too deep.
#[derive(Clone, Copy, Debug, PartialEq, Eq)]
pub enum ParseError {
    Syntax(usize),
    Level(usize),
}

const DEEPEST: u64 = 64;

// A word of the table has its place in its lower 16 bits, and its kind above them.
const PLACES: u64 = 1 << 16;

fn too_deep(opened: Option<u64>) -> bool
    ensures { result ≡ too_deep opened }
{
    match opened {
        Some(level) => DEEPEST < level,
        None => false,
    }
}

// The tree of the words of a text that is `end` bytes long, by how many words it has; the stack's top is at `top`, with room for an entry more for each word.
pub fn parse(
    end: usize,
    words: &[u64],
    stack: &mut [u64],
    tree: &mut [u64],
    top: usize,
) -> Result<usize, ParseError>
    requires { (length words.now ≤ top) × (top ≤ length stack.old) × (length words.now ≤ length tree.old) × (length words.now ≤ 4096) }
    ensures { run end words.now (drop top stack.old) tree.old 0 ≡ ending result tree.new }
{
    // Made once and lent: an array of constants is written out anew wherever it is named.
    let rules = rules::RULES;
    let starts = rules::STARTS;
    let mut at = top;
    let mut m = 0;
    for word in words {
        let x = *word;
        let place = x % PLACES;
        if at == stack.len() {
            return Err(ParseError::Syntax(place as usize));
        }
        let w = stack[at];
        let Some(rule) = rules::rule_for(&rules, &starts, w, x) else {
            return Err(ParseError::Syntax(place as usize));
        };
        if too_deep(entries::level_opened(rule, w)) {
            return Err(ParseError::Level(place as usize));
        }
        at = entries::replace_top(stack, at, rule, m as u64 + 1);
        m = nodes::write(tree, m, rule, w, place);
    }
    if at < stack.len() {
        return Err(ParseError::Syntax(end));
    }
    Ok(m)
}
