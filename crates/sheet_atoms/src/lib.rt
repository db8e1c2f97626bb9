// The atoms of a sheet put into the marks, or the first that is wrong (12).

#![tactic(auto)]

ghost use Rattle.std.specs.Prelude.{◌≡◌, cond, T, length, get_or, set, drop, replicate};
ghost use Rattle.std.proofs.Math.Option.{none};
ghost use Rattle.meaning.specs.Limits.{atom_tag};
ghost use Rattle.meaning.specs.Fields.{fields, contents_of, first_field};
ghost use Rattle.meaning.specs.Cells.{cells};
ghost use Rattle.meaning.specs.Clauses.{place};
ghost use Rattle.meaning.specs.Refusals.{accepted};
ghost use Rattle.meaning.specs.Certificates.{is_atom_content, misplaced, wrong_atom, refused_at};
ghost use Rattle.sheet_reader.specs.Faults.{fault_answer};
ghost use Rattle.sheet_atoms.specs.Holding.{is_free, Segmented, Holding};

use evaluation::Predicates;

// Marks an atom as new, in its predicate's part of the marks, if its states are below m and it is not marked. Hands back whether that was so.
fn mark_atom(content: &[u8], marks: &mut [u8], predicates: &Predicates, m: usize) -> bool
    requires { T (is_atom_content predicates.now.arities.now content.now) × Segmented m predicates.now.arities.now predicates.now.segments.now × (length marks.old ≡ cells m predicates.now.arities.now) }
    ensures { (result ≡ is_free m predicates.now.arities.now marks.old content.now) × (marks.new ≡ cond result (set marks.old (place m predicates.now.arities.now (get_or content.now 0 0) (drop 1 content.now)) 2) marks.old) }
{
    let p = usize::from(content[0]);
    let row = &content[1..];
    if !byte_runs::all_below(row, m) {
        return false;
    }
    let a = predicates.segments[p] as usize;
    let e = a + cells::power(m, predicates.arities[p]);
    cells::replace(
        &mut marks[a..e],
        cells::cell_of(row, m),
        evaluation::ABSENT,
        evaluation::NEW,
    )
}

// Marks the atoms of a sheet as new, to the first field of an atom that has a state not below m or is there for the second time.
pub fn mark_atoms(
    sheet: &[u8],
    marks: &mut [u8],
    predicates: &Predicates,
    m: usize,
) -> Option<usize>
    requires { (first_field (misplaced predicates.now.arities.now) (fields sheet.now) ≡ none) × Segmented m predicates.now.arities.now predicates.now.segments.now × (marks.old ≡ replicate (cells m predicates.now.arities.now) 0) }
    ensures fault { fault_answer 12 result ≡ refused_at 12 (first_field (wrong_atom m) (fields sheet.now)) accepted }
    ensures size { length marks.new ≡ cells m predicates.now.arities.now }
    ensures holding { first_field (wrong_atom m) (fields sheet.now) ≡ none → Holding m predicates.now.arities.now (contents_of atom_tag (fields sheet.now)) marks.new }
{
    // the fields differ in length: the position and their number go on side by side, and no range or slice has either
    let mut at = 0;
    let mut k = 0;
    while at < sheet.len() {
        if sheet_reader::tag_of(sheet, at) == meaning::ATOM_TAG
            && !mark_atom(sheet_reader::content_of(sheet, at), marks, predicates, m)
        {
            return Some(k);
        }
        at = sheet_reader::next_of(sheet, at);
        k += 1;
    }
    None
}
