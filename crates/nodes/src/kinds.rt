// The kinds of nodes, as a tree word has them. FUN and FUN REC with a block came last, so that they stand behind RETURN.
// Kept: numbers and no enum, since a lent table may hold any word, and the model compares the kinds of all of them, as `own_by` does with `<`.

pub const BLOCK: u64 = 1;

pub const CONST: u64 = 2;

pub const FUN: u64 = 3;

pub const FUN_REC: u64 = 4;

pub const VAR: u64 = 5;

pub const PROC: u64 = 6;

pub const PROC_REC: u64 = 7;

pub const ECHO: u64 = 8;

pub const SET: u64 = 9;

pub const IF_STATEMENT: u64 = 10;

pub const WHILE: u64 = 11;

pub const CALL: u64 = 12;

pub const PARAMETER: u64 = 13;

pub const VAR_PARAMETER: u64 = 14;

pub const BOOL: u64 = 15;

pub const INT: u64 = 16;

pub const ARROW: u64 = 17;

pub const NUMBER: u64 = 18;

pub const NAME: u64 = 19;

pub const IF_EXPRESSION: u64 = 20;

pub const AND: u64 = 21;

pub const OR: u64 = 22;

pub const APPLICATION: u64 = 23;

pub const ABSTRACTION: u64 = 24;

pub const ADR: u64 = 25;

pub const VEC: u64 = 26;

pub const ALLOC: u64 = 27;

pub const NTH: u64 = 28;

pub const LEN: u64 = 29;

pub const VSET: u64 = 30;

pub const RETURN: u64 = 31;

pub const FUN_BLOCK: u64 = 32;

pub const FUN_REC_BLOCK: u64 = 33;
