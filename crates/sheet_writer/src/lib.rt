// The bytes of a sheet: a field for each state, then one for each marked atom, by rising predicate and cell.

#![tactic(auto)]

ghost use Rattle.std.specs.Prelude.{◌+◌, ◌*◌, ◌^◌, ◌≤◌, ◌<◌, ◌≡◌, ◌∷◌, length};
ghost use Rattle.meaning.specs.Lists.{All};
ghost use Rattle.meaning.specs.Limits.{state_tag, atom_tag};
ghost use Rattle.meaning.specs.Fields.{encode_field};
ghost use Rattle.meaning.specs.Cells.{row_of, cells};
ghost use Rattle.meaning.specs.Certificates.{state_bytes, marked_atoms};
ghost use Rattle.byte_runs.specs.Pasted.{pasted, Put};
ghost use Rattle.sheet_writer.specs.Parts.{atom_fields, state_fields, part_atoms};
ghost use Rattle.sheet_writer.specs.Fits.{sheet_of, if_room, fit_of};

// The bytes of a field that has a state.
const STATE_FIELD: usize = 5;

// The bytes of a field that has an atom, before its states.
const BEFORE_STATES: usize = 4;

// How many bytes the fields of the marked atoms take. The part of each predicate begins where the one before ends, so the start is kept beside the loop.
fn atoms_length(marks: &[u8], preds: &[u8], m: usize) -> usize
    requires { (m ≤ 16) × (length preds.now ≤ 16) × All (λ n. n ≤ 3) preds.now × (length marks.now ≡ cells m preds.now) }
    ensures { result ≡ length (atom_fields (marked_atoms m preds.now marks.now)) }
{
    let mut sum = 0;
    let mut a = 0;
    for &n in preds {
        let e = a + cells::power(m, n);
        sum += (usize::from(n) + BEFORE_STATES) * marks::count(&marks[a..e]);
        a = e;
    }
    sum
}

// Puts a state's field.
fn put_state_field(sheet: &mut [u8], at: usize, state: u16) -> usize
    requires { at + 5 ≤ length sheet.old }
    ensures { (sheet.new ≡ pasted sheet.old at (encode_field state_tag (state_bytes state))) × (result ≡ at + 5) }
{
    let [high, low] = state.to_be_bytes();
    byte_runs::put_bytes(sheet, at, &[meaning::STATE_TAG, 0, 2, high, low])
}

// Puts the fields of the states to the front.
fn put_state_fields(sheet: &mut [u8], states: &[u16]) -> usize
    requires { length states.now * 5 ≤ length sheet.old }
    ensures { (sheet.new ≡ pasted sheet.old 0 (state_fields states.now)) × (result ≡ length states.now * 5) }
{
    let mut at = 0;
    for &state in states {
        at = put_state_field(sheet, at, state);
    }
    at
}

// Puts the field of the atom of predicate p, of arity n, at a cell.
fn put_atom_field(sheet: &mut [u8], at: usize, m: usize, n: u8, p: u8, c: usize) -> usize
    requires { (1 ≤ m) × (m ≤ 16) × (n ≤ 3) × (c < m ^ n) × (at + length (encode_field atom_tag (p ∷ row_of m n c)) ≤ length sheet.old) }
    ensures { Put sheet.old at (encode_field atom_tag (p ∷ row_of m n c)) sheet.new result }
{
    let next = byte_runs::put_bytes(sheet, at, &[meaning::ATOM_TAG, 0, n + 1, p]);
    let row = cells::row_at(c, m, n);
    byte_runs::put_bytes(sheet, next, &row[..usize::from(n)])
}

// Puts the fields of the marked atoms of a part, the segment of predicate p, of arity n.
fn put_part(sheet: &mut [u8], from: usize, part: &[u8], m: usize, n: u8, p: u8) -> usize
    requires { (1 ≤ m) × (m ≤ 16) × (n ≤ 3) × (length part.now ≡ m ^ n) × (from + length (atom_fields (part_atoms m n p 0 part.now)) ≤ length sheet.old) }
    ensures { Put sheet.old from (atom_fields (part_atoms m n p 0 part.now)) sheet.new result }
{
    let mut at = from;
    for (c, &mark) in part.iter().enumerate() {
        if mark != 0 {
            at = put_atom_field(sheet, at, m, n, p, c);
        }
    }
    at
}

// Puts the fields of the marked atoms from a position on, a predicate's part after the other.
fn put_atom_fields(sheet: &mut [u8], from: usize, marks: &[u8], preds: &[u8], m: usize) -> usize
    requires { (1 ≤ m) × (m ≤ 16) × (length preds.now ≤ 16) × All (λ n. n ≤ 3) preds.now × (length marks.now ≡ cells m preds.now) × (from + length (atom_fields (marked_atoms m preds.now marks.now)) ≤ length sheet.old) }
    ensures { (sheet.new ≡ pasted sheet.old from (atom_fields (marked_atoms m preds.now marks.now))) × (result ≡ from + length (atom_fields (marked_atoms m preds.now marks.now))) }
{
    let mut at = from;
    let mut a = 0;
    for (p, &n) in preds.iter().enumerate() {
        let e = a + cells::power(m, n);
        at = put_part(sheet, at, &marks[a..e], m, n, p as u8);
        a = e;
    }
    at
}

// Puts the sheet of states and marked atoms to the front of a buffer that is long enough.
pub fn put_sheet(sheet: &mut [u8], found: &[u16], marks: &[u8], preds: &[u8]) -> Option<usize>
    requires { (1 ≤ length found.now) × (length found.now ≤ 16) × (length preds.now ≤ 16) × All (λ n. n ≤ 3) preds.now × (length marks.now ≡ cells (length found.now) preds.now) }
    ensures { (result ≡ fit_of (sheet_of found.now preds.now marks.now) sheet.old) × (sheet.new ≡ if_room (sheet_of found.now preds.now marks.now) sheet.old) }
{
    let m = found.len();
    let needed = m * STATE_FIELD + atoms_length(marks, preds, m);
    if sheet.len() < needed {
        return None;
    }
    let at = put_state_fields(sheet, found);
    put_atom_fields(sheet, at, marks, preds, m);
    Some(needed)
}
