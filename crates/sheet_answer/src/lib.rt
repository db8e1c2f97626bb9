// The answer to a sheet from the four searches: none, or 10 to 13, each at the lowest place that it fits.

#![tactic(auto)]

ghost use Rattle.std.specs.Prelude.{◌≡◌, length, replicate};
ghost use Rattle.meaning.specs.Cells.{cells};
ghost use Rattle.meaning.specs.Certificates.{answer_of_sheet};
ghost use Rattle.meaning.specs.Files.{rules_of};
ghost use Rattle.meaning.specs.Calls.{predicate_arities, states_of, interpretation_of};
ghost use Rattle.answers.specs.Refused.{answered};
ghost use Rattle.acceptance.specs.Handed.{IsHanded};

use acceptance::HandedFile;
use answers::Refusal;
use declarations::Kind;

// The answer to a sheet. The marks are zero at first, and of no use afterwards.
pub fn judge_sheet(sheet: &[u8], handed: &HandedFile, marks: &mut [u8]) -> Result<(), Refusal>
    requires { IsHanded handed.now × (marks.old ≡ replicate (cells handed.now.automaton.m handed.now.predicates.arities.now) 0) }
    ensures answer { answered result ≡ answer_of_sheet (states_of handed.now.accepted.file.now) (interpretation_of handed.now.accepted.file.now) (predicate_arities handed.now.accepted.file.now) (rules_of handed.now.accepted.file.now).clauses sheet.now }
    ensures size { length marks.new ≡ length marks.old }
{
    let accepted = &handed.accepted;
    let automaton = &handed.automaton;
    let predicates = &handed.predicates;
    if let Some(k) = sheet_layout::first_misplaced(sheet, predicates.arities) {
        return Err(Refusal::SheetMisplaced(k));
    }
    if let Some(i) = sheet_layout::first_difference(sheet, accepted.states) {
        return Err(Refusal::SheetStatesDiffer(i));
    }
    if let Some(k) = sheet_atoms::mark_atoms(sheet, marks, predicates, automaton.m) {
        return Err(Refusal::SheetWrongAtom(k));
    }
    let clauses = accepted.known.section(accepted.file, Kind::Clause);
    if let Some(c) = sheet_closure::first_violation(&clauses, automaton, predicates, marks) {
        return Err(Refusal::SheetNotClosed(c));
    }
    Ok(())
}
