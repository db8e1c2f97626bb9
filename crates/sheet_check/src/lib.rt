// A sheet checked for a rule file, whoever wrote it: 1 to 8 for the file, 9 if a buffer is too short, then 10 to 13, each at the lowest place that it fits.

#![tactic(auto)]

ghost use Rattle.std.specs.Prelude.{◌≤◌, ◌≡◌, length, replicate};
ghost use Rattle.meaning.specs.Cells.{cells};
ghost use Rattle.meaning.specs.Certificates.{answer_of_sheet};
ghost use Rattle.meaning.specs.Files.{rules_of};
ghost use Rattle.meaning.specs.Calls.{predicate_arities, states_of, interpretation_of, tables_of, model_of, written, checked};
ghost use Rattle.answers.specs.Refused.{answered};
ghost use Rattle.acceptance.specs.Accepted.{IsAccepted};
ghost use Rattle.acceptance.specs.Handed.{IsHanded};
ghost use Rattle.sheet_check.specs.Given.{gave};

use acceptance::{Accepted, HandedFile};
use answers::Refusal;
use evaluation::{Automaton, Predicates};

// The answer to a sheet, with marks that are zero afterwards, whatever they were.
fn judge_cleanly(sheet: &[u8], handed: &HandedFile, marks: &mut [u8]) -> Result<(), Refusal>
    requires { IsHanded handed.now × (length marks.old ≡ cells handed.now.automaton.m handed.now.predicates.arities.now) }
    ensures answer { answered result ≡ answer_of_sheet (states_of handed.now.accepted.file.now) (interpretation_of handed.now.accepted.file.now) (predicate_arities handed.now.accepted.file.now) (rules_of handed.now.accepted.file.now).clauses sheet.now }
    ensures marks { marks.new ≡ replicate (cells handed.now.automaton.m handed.now.predicates.arities.now) 0 }
{
    let preds = handed.predicates.arities;
    let m = handed.automaton.m;
    marks::zero_all(marks, preds, m);
    let answer = sheet_answer::judge_sheet(sheet, handed, marks);
    marks::zero_all(marks, preds, m);
    answer
}

// The answer to a sheet; the tables are written, and the needed marks are zero.
fn check_sheet(
    sheet: &[u8],
    accepted: &Accepted,
    tables: &mut [u8],
    marks: &mut [u8],
) -> Result<(), Refusal>
    requires file_value { IsAccepted accepted.now.file.now accepted.now.known.now accepted.now.states.now }
    requires file_in_bounds { (length (tables_of accepted.now.file.now) ≤ length tables.old) × (length (model_of accepted.now.file.now) ≤ length marks.old) }
    ensures answer { answered result ≡ answer_of_sheet (states_of accepted.now.file.now) (interpretation_of accepted.now.file.now) (predicate_arities accepted.now.file.now) (rules_of accepted.now.file.now).clauses sheet.now }
    ensures tables { tables.new ≡ written (tables_of accepted.now.file.now) tables.old }
    ensures marks { marks.new ≡ written (replicate (length (model_of accepted.now.file.now)) 0) marks.old }
{
    let symbols = accepted.known.symbols();
    let preds = accepted.known.predicates();
    let m = accepted.states.len();
    let starts = cells::starts_of(symbols, m);
    let segments = cells::starts_of(preds, m);
    let size = cells::cells_of(preds, m);
    acceptance::write_file_tables(tables, accepted);
    let handed = HandedFile {
        accepted: *accepted,
        automaton: Automaton {
            arities: symbols,
            starts: &starts,
            tables,
            m,
        },
        predicates: Predicates {
            arities: preds,
            segments: &segments,
        },
    };
    judge_cleanly(sheet, &handed, &mut marks[..size])
}

// Checks a sheet for an accepted file: 9 if a buffer is too short.
fn check_accepted(
    accepted: &Accepted,
    sheet: &[u8],
    tables: &mut [u8],
    marks: &mut [u8],
) -> Result<(), Refusal>
    requires { IsAccepted accepted.now.file.now accepted.now.known.now accepted.now.states.now }
    ensures { gave result (record { tables = tables.exit.now; marks = marks.new }) ≡ checked accepted.now.file.now sheet.now (record { tables = tables.entry.now; marks = marks.old }) }
{
    let known = accepted.known;
    let enough = buffers::lent_enough(
        known.symbols(),
        known.predicates(),
        accepted.states.len(),
        tables.len(),
        marks.len(),
    );
    if !enough {
        return Err(Refusal::BufferTooShort);
    }
    check_sheet(sheet, accepted, tables, marks)
}

// Checks a sheet for a file. Nothing is written before 1 to 9 are ruled out.
pub fn check(file: &[u8], sheet: &[u8], tables: &mut [u8], marks: &mut [u8]) -> Result<(), Refusal>
    ensures { gave result (record { tables = tables.exit.now; marks = marks.new }) ≡ checked file.now sheet.now (record { tables = tables.entry.now; marks = marks.old }) }
{
    let acceptance = acceptance::accept(file);
    let found = acceptance.states?;
    let accepted = Accepted {
        file,
        known: &acceptance.known,
        states: found.as_slice(),
    };
    check_accepted(&accepted, sheet, tables, marks)
}
