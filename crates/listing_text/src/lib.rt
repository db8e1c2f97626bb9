// The lines of a listing, put piece by piece into a buffer. Each function that puts answers the position past what it put. The buffer and the position in it
// stay two arguments, since `Put` of the contracts of `put_piece` and `put_refusal` names both.

#![tactic(auto)]

ghost use Rattle.std.specs.Prelude.{ℕ, ◌+◌, ◌^◌, ◌≤◌, ◌<◌, ◌≡◌, cond, List, ◌∷◌, eqb, length, get_or};
ghost use Rattle.meaning.specs.Lists.{All};
ghost use Rattle.meaning.specs.Cells.{row_of, start, cells};
ghost use Rattle.meaning.specs.Refusals.{accepted, refused};
ghost use Rattle.meaning.specs.Files.{rules_of, file_answer};
ghost use Rattle.meaning.specs.Calls.{predicate_arities, states_of, rounds_of, model_of, atoms_of};
ghost use Rattle.declarations.specs.Known.{Knows, fields_read};
ghost use Rattle.byte_runs.specs.Pasted.{Put};
ghost use Rattle.listing_text.specs.Lines.{open_word, clear_word, number_after, count_line, counts_line, refused_line, held_name, held_names, or_dash, state_text, row_text, named_text, query_text, states_text, queries_text};
ghost use Rattle.listing_text.specs.Listing.{atom_line, place_line, model_text, pieces, piece, Results};

use automaton::TypeSet;
use declarations::{Kind, Known};

// No piece has more bytes.
pub const PIECE: usize = 128;

// The pieces that are a heading: `states`, `model`, `queries`.
const HEADINGS: usize = 3;

const SPACE: u8 = b' ';

const LINE_END: u8 = b'\n';

// What a listing is put together from: an accepted file, what is known of it, and what its analysis wrote, each part as long as the file needs.
#[derive(Clone, Copy)]
pub struct Findings<'a> {
    pub file: &'a [u8],
    pub known: &'a Known,
    pub states: &'a [u16],
    pub marks: &'a [u8],
    pub verdicts: &'a [u8],
    pub atoms: usize,
    pub rounds: usize,
}

// A place of the marks: the predicate whose segment it lies in, and the cell that it is there.
#[derive(Clone, Copy)]
struct Place {
    predicate: usize,
    cell: usize,
}

// A word and a number.
fn put_number(out: &mut [u8], at: usize, word: &[u8], n: usize) -> usize
    requires { at + length (number_after word.now n) ≤ length out.old }
    ensures { Put out.old at (number_after word.now n) out.new result }
{
    let next = byte_runs::put_bytes(out, at, word);
    text::put_decimal(out, next, n)
}

// A line of a word and a number.
fn put_count(out: &mut [u8], at: usize, word: &[u8], n: usize) -> usize
    requires { at + length (count_line word.now n) ≤ length out.old }
    ensures { Put out.old at (count_line word.now n) out.new result }
{
    let next = put_number(out, at, word, n);
    byte_runs::put_byte(out, next, LINE_END)
}

// A line of a word and a number and a word and a number.
fn put_counts(out: &mut [u8], at: usize, first: &[u8], a: usize, second: &[u8], b: usize) -> usize
    requires { at + length (counts_line first.now a second.now b) ≤ length out.old }
    ensures { Put out.old at (counts_line first.now a second.now b) out.new result }
{
    let next = put_number(out, at, first, a);
    put_count(out, next, second, b)
}

// `refused N at K`
pub fn put_refusal(out: &mut [u8], at: usize, number: usize, place: usize) -> usize
    requires { at + 128 ≤ length out.old }
    ensures { Put out.old at (refused_line (refused number place)) out.new result × (result ≤ at + 128) }
{
    put_counts(out, at, b"refused ", number, b" at ", place)
}

// A space and a type's name, if the state holds the type.
fn put_type(out: &mut [u8], at: usize, state: u16, t: u8, name: &[u8]) -> usize
    requires { (t < 16) × (at + length (held_name state t name.now) ≤ length out.old) }
    ensures { Put out.old at (held_name state t name.now) out.new result }
{
    let types = TypeSet { bits: state };
    if !types.has(t) {
        return at;
    }
    let next = byte_runs::put_byte(out, at, SPACE);
    byte_runs::put_bytes(out, next, name)
}

// A space and a number for each state of a row.
fn put_row(out: &mut [u8], at: usize, row: &[u8]) -> usize
    requires { at + length (row_text row.now) ≤ length out.old }
    ensures { Put out.old at (row_text row.now) out.new result }
{
    let mut next = at;
    for state in row {
        next = put_number(out, next, b" ", usize::from(*state));
    }
    next
}

// The line of an atom, by its predicate's name and its row. `put_state`, `put_query` and this one are alike in that they put two parts and a line end, but no
// part is the same in two of them: one function would take the parts as closures, each with its clause, and be longer than the three.
fn put_atom(out: &mut [u8], at: usize, name: &[u8], row: &[u8]) -> usize
    requires { at + length (named_text name.now row.now) ≤ length out.old }
    ensures { Put out.old at (named_text name.now row.now) out.new result }
{
    let from = byte_runs::put_bytes(out, at, name);
    let to = put_row(out, from, row);
    byte_runs::put_byte(out, to, LINE_END)
}

// The word of a verdict: a byte of the verdicts' buffer, 0 or 1, as the analysis writes it and `queries_text` reads it.
fn put_verdict(out: &mut [u8], at: usize, verdict: u8) -> usize
    requires { at + length (cond (eqb verdict 0) clear_word open_word) ≤ length out.old }
    ensures { Put out.old at (cond (eqb verdict 0) clear_word open_word) out.new result }
{
    if verdict == 0 {
        byte_runs::put_bytes(out, at, b" CLEAR")
    } else {
        byte_runs::put_bytes(out, at, b" OPEN")
    }
}

// The line of query number i.
fn put_query(out: &mut [u8], at: usize, i: usize, verdict: u8) -> usize
    requires { at + length (query_text i verdict) ≤ length out.old }
    ensures { Put out.old at (query_text i verdict) out.new result }
{
    let from = text::put_decimal(out, at, i);
    let to = put_verdict(out, from, verdict);
    byte_runs::put_byte(out, to, LINE_END)
}

// The predicate and the cell of place j of the marks.
fn place_of(arities: &[u8], m: usize, j: usize) -> Place
    requires { (m ≤ 16) × All (λ n. n ≤ 4) arities.now × (j < cells m arities.now) }
    ensures { (result.predicate < length arities.now) × (result.cell < m ^ get_or arities.now result.predicate 0) × (j ≡ start m arities.now result.predicate + result.cell) }
{
    let mut cell = j;
    for (predicate, arity) in arities.iter().enumerate() {
        let size = cells::power(m, *arity);
        if cell < size {
            return Place { predicate, cell };
        }
        cell -= size;
    }
    // Not reached: each place lies in a segment.
    Place { predicate: 0, cell }
}

impl Findings<'_> {
    // The names of the types that a state holds, a space before each.
    fn put_types(&self, out: &mut [u8], at: usize, state: u16) -> usize
        requires file_value { (file_answer self.now.file.now ≡ accepted) × Knows self.now.known.now (fields_read self.now.file.now) }
        requires file_in_bounds { at + length (held_names state 0 (rules_of self.now.file.now).types) ≤ length out.old }
        ensures { Put out.old at (held_names state 0 (rules_of self.now.file.now).types) out.new result }
    {
        let types = self.known.section(self.file, Kind::Type);
        let mut next = at;
        for t in 0..types.count {
            let name = fields::nth_content(types.bytes, types.from, usize::from(t));
            next = put_type(out, next, state, t, name);
        }
        next
    }

    // The same, or ` -` where the state holds no type.
    fn put_held(&self, out: &mut [u8], at: usize, state: u16) -> usize
        requires file_value { (file_answer self.now.file.now ≡ accepted) × Knows self.now.known.now (fields_read self.now.file.now) }
        requires file_in_bounds { at + length (or_dash (held_names state 0 (rules_of self.now.file.now).types)) ≤ length out.old }
        ensures { Put out.old at (or_dash (held_names state 0 (rules_of self.now.file.now).types)) out.new result }
    {
        let next = self.put_types(out, at, state);
        if next == at {
            byte_runs::put_bytes(out, at, b" -")
        } else {
            next
        }
    }

    // The line of state number i.
    fn put_state(&self, out: &mut [u8], at: usize, i: usize, state: u16) -> usize
        requires file_value { (file_answer self.now.file.now ≡ accepted) × Knows self.now.known.now (fields_read self.now.file.now) }
        requires state_in_bounds { at + length (state_text (rules_of self.now.file.now).types i state) ≤ length out.old }
        ensures { Put out.old at (state_text (rules_of self.now.file.now).types i state) out.new result }
    {
        let from = text::put_decimal(out, at, i);
        let to = self.put_held(out, from, state);
        byte_runs::put_byte(out, to, LINE_END)
    }

    // The line of the atom of predicate p at a cell of its segment.
    fn put_cell(&self, out: &mut [u8], at: usize, p: usize, cell: usize) -> usize
        requires file_value { (file_answer self.now.file.now ≡ accepted) × Knows self.now.known.now (fields_read self.now.file.now) × (length self.now.states.now ≡ length (states_of self.now.file.now)) }
        requires p_in_bounds { (p < length (predicate_arities self.now.file.now)) × (cell < length self.now.states.now ^ get_or (predicate_arities self.now.file.now) p 0) × (at + 128 ≤ length out.old) }
        ensures { Put out.old at (atom_line self.now.file.now (p ∷ row_of (length self.now.states.now) (get_or (predicate_arities self.now.file.now) p 0) cell)) out.new result × (result ≤ at + 128) }
    {
        let arity = self.known.predicates()[p];
        let row = cells::row_at(cell, self.states.len(), arity);
        let predicates = self.known.section(self.file, Kind::Predicate);
        let content = fields::nth_content(predicates.bytes, predicates.from, p);
        put_atom(out, at, &content[1..], &row[..usize::from(arity)])
    }

    // The line of the atom at place j of the marks, if it is in the model.
    fn put_place(&self, out: &mut [u8], at: usize, j: usize) -> usize
        requires file_value { (file_answer self.now.file.now ≡ accepted) × Knows self.now.known.now (fields_read self.now.file.now) × (length self.now.states.now ≡ length (states_of self.now.file.now)) }
        requires marks_value { (self.now.marks.now ≡ model_of self.now.file.now) × (j < length self.now.marks.now) × (at + 128 ≤ length out.old) }
        ensures { Put out.old at (place_line self.now.file.now j) out.new result × (result ≤ at + 128) }
    {
        if self.marks[j] == 0 {
            return at;
        }
        let place = place_of(self.known.predicates(), self.states.len(), j);
        self.put_cell(out, at, place.predicate, place.cell)
    }

    // Piece k of the states: how many there are, then a line for each.
    fn put_states(&self, out: &mut [u8], at: usize, k: usize) -> usize
        requires file_value { (file_answer self.now.file.now ≡ accepted) × Knows self.now.known.now (fields_read self.now.file.now) }
        requires states_len_bound { (length self.now.states.now ≤ 16) × (k ≤ length self.now.states.now) × (at + 128 ≤ length out.old) }
        ensures { Put out.old at (states_text (rules_of self.now.file.now).types self.now.states.now k) out.new result × (result ≤ at + 128) }
    {
        if k == 0 {
            return put_count(out, at, b"states ", self.states.len());
        }
        self.put_state(out, at, k - 1, self.states[k - 1])
    }

    // Piece j of the model: its counts, then a piece for each place of the marks.
    fn put_model(&self, out: &mut [u8], at: usize, j: usize) -> usize
        requires file_value { (file_answer self.now.file.now ≡ accepted) × Knows self.now.known.now (fields_read self.now.file.now) × (length self.now.states.now ≡ length (states_of self.now.file.now)) }
        requires marks_value { (self.now.marks.now ≡ model_of self.now.file.now) × (j ≤ length self.now.marks.now) × (at + 128 ≤ length out.old) }
        ensures { Put out.old at (model_text self.now.file.now self.now.atoms self.now.rounds j) out.new result × (result ≤ at + 128) }
    {
        if j == 0 {
            return put_counts(out, at, b"model ", self.atoms, b" rounds ", self.rounds);
        }
        self.put_place(out, at, j - 1)
    }

    // Piece i of the queries: how many there are, then a line for each.
    fn put_queries(&self, out: &mut [u8], at: usize, i: usize) -> usize
        requires { (i ≤ length self.now.verdicts.now) × (at + 128 ≤ length out.old) }
        ensures { Put out.old at (queries_text self.now.verdicts.now i) out.new result × (result ≤ at + 128) }
    {
        if i == 0 {
            return put_count(out, at, b"queries ", self.verdicts.len());
        }
        put_query(out, at, i - 1, self.verdicts[i - 1])
    }

    // How many pieces the listing has. What they need is said of some file, which need not be the one at hand.
    pub fn piece_count(&self) -> usize
        requires { (file : List ℕ) × Results file self.now.states.now self.now.marks.now self.now.verdicts.now }
        ensures { (file : List ℕ) → Results file self.now.states.now self.now.marks.now self.now.verdicts.now → result ≡ pieces file }
    {
        self.states.len() + self.marks.len() + self.verdicts.len() + HEADINGS
    }

    // Piece k of the listing: the numbers go on from the states over the model to the queries, as `piece` of the contract counts. No piece is longer than 128
    // bytes.
    pub fn put_piece(&self, out: &mut [u8], at: usize, k: usize) -> usize
        requires results { Results self.now.file.now self.now.states.now self.now.marks.now self.now.verdicts.now × Knows self.now.known.now (fields_read self.now.file.now) }
        requires atoms_value { (self.now.atoms ≡ length (atoms_of self.now.file.now)) × (self.now.rounds ≡ rounds_of self.now.file.now) × (k < pieces self.now.file.now) × (at + 128 ≤ length out.old) }
        ensures { Put out.old at (piece self.now.file.now k) out.new result × (result ≤ at + 128) }
    {
        let m = self.states.len();
        if k <= m {
            return self.put_states(out, at, k);
        }
        let j = k - m - 1;
        if j <= self.marks.len() {
            return self.put_model(out, at, j);
        }
        self.put_queries(out, at, j - self.marks.len() - 1)
    }
}
