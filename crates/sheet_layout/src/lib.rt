// A sheet read field by field: the first field that is misplaced (10), and the first state that differs (11).

#![tactic(auto)]

ghost use Rattle.std.specs.Prelude.{◌+◌, max, ◌≡◌, length, get_or};
ghost use Rattle.meaning.specs.Lists.{lowest};
ghost use Rattle.meaning.specs.Fields.{fields, first_field, word};
ghost use Rattle.meaning.specs.Refusals.{accepted};
ghost use Rattle.meaning.specs.Certificates.{is_atom_content, misplaced, states_in, differ, refused_at};
ghost use Rattle.sheet_reader.specs.Faults.{fault_answer};
ghost use Rattle.sheet_layout.specs.Reading.{misplaced_after, NoneMisplaced};

use fields::Found;

// Whether a content is an atom's: a declared predicate, and as many bytes after it as its arity.
fn is_atom(content: &[u8], preds: &[u8]) -> bool
    ensures { result ≡ is_atom_content preds.now content.now }
{
    let Some((&p, row)) = content.split_first() else {
        return false;
    };
    preds
        .get(usize::from(p))
        .is_some_and(|&arity| usize::from(arity) == row.len())
}

// Whether a whole field is misplaced; `atoms` says if an atom's field stands before it.
fn is_misplaced(tag: u8, content: &[u8], preds: &[u8], atoms: bool) -> bool
    ensures { result ≡ misplaced_after preds.now atoms tag content.now }
{
    match tag {
        meaning::STATE_TAG => atoms || content.len() != 2,
        meaning::ATOM_TAG => !is_atom(content, preds),
        _ => true,
    }
}

// The first field that is misplaced.
pub fn first_misplaced(sheet: &[u8], preds: &[u8]) -> Option<usize>
    ensures { fault_answer 10 result ≡ refused_at 10 (first_field (misplaced preds.now) (fields sheet.now)) accepted }
{
    // the fields differ in length: the position and their number go on side by side, and no range or slice has either
    let mut at = 0;
    let mut k = 0;
    let mut atoms = false;
    loop {
        match sheet_reader::field_of(sheet, at) {
            Found::Whole(tag, _) => {
                if is_misplaced(tag, sheet_reader::content_of(sheet, at), preds, atoms) {
                    return Some(k);
                }
                // no atom's field stands before a state's
                atoms = tag == meaning::ATOM_TAG;
                at = sheet_reader::next_of(sheet, at);
                k += 1;
            }
            Found::Cut => return Some(k),
            Found::End => return None,
        }
    }
}

// Two bytes as a number, high byte first.
fn word_of(content: &[u8]) -> u16
    requires { length content.now ≡ 2 }
    ensures { result ≡ word (get_or content.now 0 0) (get_or content.now 1 0) }
{
    u16::from_be_bytes([content[0], content[1]])
}

// The first place where the sheet's states and the given ones differ, a missing or extra one included.
pub fn first_difference(sheet: &[u8], states: &[u16]) -> Option<usize>
    requires { NoneMisplaced sheet.now }
    ensures { fault_answer 11 result ≡ refused_at 11 (lowest (max (length (states_in (fields sheet.now))) (length states.now)) (differ (states_in (fields sheet.now)) states.now)) accepted }
{
    let mut at = 0;
    for (i, &state) in states.iter().enumerate() {
        if sheet_reader::tag_of(sheet, at) != meaning::STATE_TAG
            || word_of(sheet_reader::content_of(sheet, at)) != state
        {
            return Some(i);
        }
        at = sheet_reader::next_of(sheet, at);
    }
    if sheet_reader::tag_of(sheet, at) == meaning::STATE_TAG {
        return Some(states.len());
    }
    None
}
