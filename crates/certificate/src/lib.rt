// The certificate (01: sheet) of a rule file, analysed and written.

#![tactic(auto)]

ghost use Rattle.std.specs.Prelude.{◌≡◌};
ghost use Rattle.meaning.specs.Calls.{WrittenInOrder};
ghost use Rattle.acceptance.specs.Accepted.{IsAccepted};
ghost use Rattle.certificate.specs.Given.{wrote};

use acceptance::Accepted;
use analysis::Counts;
use answers::Refusal;

// What the analysis counts, and the bytes of the sheet.
#[derive(Clone, Copy, Default)]
pub struct Written {
    pub counts: Counts,
    pub bytes: usize,
}

// Writes the sheet of an accepted file: 9 if another buffer is too short, 14 if the sheet's is.
fn write_accepted(
    accepted: &Accepted,
    states: &mut [u16],
    tables: &mut [u8],
    marks: &mut [u8],
    verdicts: &mut [u8],
    sheet: &mut [u8],
) -> Result<Written, Refusal>
    requires { IsAccepted accepted.now.file.now accepted.now.known.now accepted.now.states.now }
    ensures { WrittenInOrder accepted.now.file.now (record { states = states.entry.now; tables = tables.old; marks = marks.old; verdicts = verdicts.old }) sheet.old (wrote result (record { states = states.exit.now; tables = tables.new; marks = marks.new; verdicts = verdicts.new }) sheet.new) }
{
    let counts = analysis::analyse_accepted(accepted, states, tables, marks, verdicts)?;
    let found = accepted.states;
    let preds = accepted.known.predicates();
    let size = cells::cells_of(preds, found.len());
    let Some(bytes) = sheet_writer::put_sheet(sheet, found, &marks[..size], preds) else {
        return Err(Refusal::SheetBufferTooShort);
    };
    Ok(Written { counts, bytes })
}

// Analyses a file and writes its sheet. Nothing is written before 1 to 9 are ruled out, and no byte of the sheet before 14 is.
pub fn write(
    file: &[u8],
    states: &mut [u16],
    tables: &mut [u8],
    marks: &mut [u8],
    verdicts: &mut [u8],
    sheet: &mut [u8],
) -> Result<Written, Refusal>
    ensures { WrittenInOrder file.now (record { states = states.entry.now; tables = tables.old; marks = marks.old; verdicts = verdicts.old }) sheet.old (wrote result (record { states = states.exit.now; tables = tables.new; marks = marks.new; verdicts = verdicts.new }) sheet.new) }
{
    let acceptance = acceptance::accept(file);
    let found = acceptance.states?;
    let accepted = Accepted {
        file,
        known: &acceptance.known,
        states: found.as_slice(),
    };
    write_accepted(&accepted, states, tables, marks, verdicts, sheet)
}
