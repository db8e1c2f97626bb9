// The static library for C and Rust: the three public calls of `exports` under their C names, each with the clauses that it has there. The parameters
// are those of the header for C.

#![tactic(auto)]

ghost use Rattle.std.specs.Prelude.{◌≡◌};
ghost use Rattle.meaning.specs.Calls.{analysed, checked, WrittenInOrder};
ghost use Rattle.exports.specs.Numbers.{analysis, writing, check};

// Analyses a rule file: its states, tables, model and verdicts.
#[unsafe(no_mangle)]
pub extern "C" fn rules_analyse(
    file: &[u8],
    states: &mut [u16],
    tables: &mut [u8],
    marks: &mut [u8],
    verdicts: &mut [u8],
    place: &mut usize,
    count: &mut usize,
    atoms: &mut usize,
    rounds: &mut usize,
) -> usize
    ensures { analysis result place.new count.new atoms.new rounds.new (record { states = states.exit.now; tables = tables.new; marks = marks.new; verdicts = verdicts.new }) ≡ analysed file.now (record { states = states.entry.now; tables = tables.old; marks = marks.old; verdicts = verdicts.old }) }
{
    exports::rules_analyse(
        file, states, tables, marks, verdicts, place, count, atoms, rounds,
    )
}

// Analyses a rule file and writes its sheet.
#[unsafe(no_mangle)]
pub extern "C" fn rules_write(
    file: &[u8],
    states: &mut [u16],
    tables: &mut [u8],
    marks: &mut [u8],
    verdicts: &mut [u8],
    sheet: &mut [u8],
    place: &mut usize,
    count: &mut usize,
    atoms: &mut usize,
    rounds: &mut usize,
    bytes: &mut usize,
) -> usize
    ensures { WrittenInOrder file.now (record { states = states.entry.now; tables = tables.old; marks = marks.old; verdicts = verdicts.old }) sheet.old (writing result place.new count.new atoms.new rounds.new bytes.new (record { states = states.exit.now; tables = tables.new; marks = marks.new; verdicts = verdicts.new }) sheet.new) }
{
    exports::rules_write(
        file, states, tables, marks, verdicts, sheet, place, count, atoms, rounds, bytes,
    )
}

// Checks a sheet for a rule file.
#[unsafe(no_mangle)]
pub extern "C" fn rules_check(
    file: &[u8],
    sheet: &[u8],
    tables: &mut [u8],
    marks: &mut [u8],
    place: &mut usize,
) -> usize
    ensures { check result place.new (record { tables = tables.exit.now; marks = marks.new }) ≡ checked file.now sheet.now (record { tables = tables.entry.now; marks = marks.old }) }
{
    exports::rules_check(file, sheet, tables, marks, place)
}
