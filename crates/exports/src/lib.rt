// The three public calls, over numbers and slices, as C and Rust take them. Each answers the number; the place and the counts come through references. `exports_c` hands
// them to C: that interface is why the parameters are many, each buffer and each number by itself, and why the answer is a number.

#![tactic(auto)]

ghost use Rattle.std.specs.Prelude.{◌≡◌};
ghost use Rattle.meaning.specs.Calls.{analysed, checked, WrittenInOrder};
ghost use Rattle.meaning.specs.Refusals.{refused};
ghost use Rattle.exports.specs.Numbers.{analysis, writing, check, answer_of};

use answers::Refusal;

// The number of an answer, and its place through a reference: both 0 where nothing is refused.
fn answer(refusal: Option<Refusal>, place: &mut usize) -> usize
    ensures { refused result place.new ≡ answer_of refusal }
{
    match refusal {
        Some(refusal) => {
            *place = refusal.place();
            refusal.number()
        }
        None => {
            *place = 0;
            0
        }
    }
}

// Analyses a rule file: its states, tables, model and verdicts.
pub fn rules_analyse(
    file: &[u8],
    states: &mut [u16],
    tables: &mut [u8],
    marks: &mut [u8],
    verdicts: &mut [u8],
    place: &mut usize,
    count: &mut usize,
    atoms: &mut usize,
    rounds: &mut usize,
) -> usize
    ensures { analysis result place.new count.new atoms.new rounds.new (record { states = states.exit.now; tables = tables.new; marks = marks.new; verdicts = verdicts.new }) ≡ analysed file.now (record { states = states.entry.now; tables = tables.old; marks = marks.old; verdicts = verdicts.old }) }
{
    let result = analysis::analyse(file, states, tables, marks, verdicts);
    let found = result.unwrap_or_default();
    *count = found.states;
    *atoms = found.atoms;
    *rounds = found.rounds;
    answer(result.err(), place)
}

// Analyses a rule file and writes its sheet.
pub fn rules_write(
    file: &[u8],
    states: &mut [u16],
    tables: &mut [u8],
    marks: &mut [u8],
    verdicts: &mut [u8],
    sheet: &mut [u8],
    place: &mut usize,
    count: &mut usize,
    atoms: &mut usize,
    rounds: &mut usize,
    bytes: &mut usize,
) -> usize
    ensures { WrittenInOrder file.now (record { states = states.entry.now; tables = tables.old; marks = marks.old; verdicts = verdicts.old }) sheet.old (writing result place.new count.new atoms.new rounds.new bytes.new (record { states = states.exit.now; tables = tables.new; marks = marks.new; verdicts = verdicts.new }) sheet.new) }
{
    let result = certificate::write(file, states, tables, marks, verdicts, sheet);
    let made = result.unwrap_or_default();
    *count = made.counts.states;
    *atoms = made.counts.atoms;
    *rounds = made.counts.rounds;
    *bytes = made.bytes;
    answer(result.err(), place)
}

// Checks a sheet for a rule file.
pub fn rules_check(
    file: &[u8],
    sheet: &[u8],
    tables: &mut [u8],
    marks: &mut [u8],
    place: &mut usize,
) -> usize
    ensures { check result place.new (record { tables = tables.exit.now; marks = marks.new }) ≡ checked file.now sheet.now (record { tables = tables.entry.now; marks = marks.old }) }
{
    let result = sheet_check::check(file, sheet, tables, marks);
    answer(result.err(), place)
}
