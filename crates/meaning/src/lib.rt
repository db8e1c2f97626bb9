// What a rule file, its states, model, verdicts and certificates are: definitions in specs/, theorems in proofs/. No code but the numbers of the formats, under
// the names of their definitions (specs/Limits.antt, specs/Refusals.antt).

#![tactic(auto)]

pub const MOST_FILE_BYTES: usize = 32768;

pub const MOST_CONTENT: usize = 250;

pub const MOST_NAME: usize = 8;

pub const MOST_SYMBOL_ARITY: u8 = 2;

pub const MOST_PREDICATE_ARITY: u8 = 3;

pub const MOST_VARIABLES: u8 = 6;

pub const MOST_BODY: u8 = 4;

pub const MOST_STATES: usize = 16;

// The byte of variable 0 and of the condition "not of type 0"; the condition "free".
pub const FIRST_VARIABLE: u8 = 128;

pub const FREE: u8 = 255;

// The tags of a rule file's fields, and the most of each.
pub const SYMBOL_TAG: u8 = 1;

pub const TYPE_TAG: u8 = 2;

pub const PRODUCTION_TAG: u8 = 3;

pub const PREDICATE_TAG: u8 = 4;

pub const CLAUSE_TAG: u8 = 5;

pub const QUERY_TAG: u8 = 6;

pub const MOST_SYMBOLS: u8 = 24;

pub const MOST_TYPES: u8 = 12;

pub const MOST_PRODUCTIONS: u8 = 200;

pub const MOST_PREDICATES: u8 = 16;

pub const MOST_CLAUSES: u8 = 64;

pub const MOST_QUERIES: u8 = 32;

// The tags of a sheet's fields.
pub const STATE_TAG: u8 = 16;

pub const ATOM_TAG: u8 = 17;

// A clause's content: its variables, its body atoms, and from here on its head.
pub const HEAD: usize = 2;

// A query's content: its variables, from here on a condition for each, and behind them its atom.
pub const CONDITIONS: usize = 1;

// A production's content: its target type, its symbol, and from here on the types of its arguments.
pub const ARGUMENTS: usize = 2;

// The numbers of refusals.
pub const FILE_TOO_LONG: usize = 1;

pub const FIELD_CUT: usize = 2;

pub const WRONG_TAG: usize = 3;

pub const MALFORMED: usize = 4;

pub const NAME_TAKEN: usize = 5;

pub const TOO_MANY: usize = 6;

pub const NO_CONSTANT: usize = 7;

pub const TOO_MANY_STATES: usize = 8;

pub const BUFFER_TOO_SHORT: usize = 9;

pub const SHEET_MISPLACED: usize = 10;

pub const SHEET_STATES_DIFFER: usize = 11;

pub const SHEET_WRONG_ATOM: usize = 12;

pub const SHEET_NOT_CLOSED: usize = 13;

pub const SHEET_BUFFER_TOO_SHORT: usize = 14;
