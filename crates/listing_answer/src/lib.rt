// A file analysed for its listing, with the line that its listing has for a refusal.

#![tactic(auto)]

ghost use Rattle.std.specs.Prelude.{◌≡◌, ◌≤◌, length};
ghost use Rattle.meaning.specs.Calls.{atoms_of, rounds_of};
ghost use Rattle.declarations.specs.Known.{Knows, fields_read};
ghost use Rattle.listing_text.specs.Listing.{Results};
ghost use Rattle.analysis.specs.Given.{Filled};
ghost use Rattle.listing_answer.specs.Answered.{AnsweredIn};

use analysis::Counts;
use answers::Refusal;
use declarations::{Kind, Known};
use listing_text::Findings;

// Why a file is refused, and how many bytes of text say so.
#[derive(Clone, Copy)]
pub struct Refused {
    pub refusal: Refusal,
    pub text: usize,
}

// The analysis of a file in the lent buffers; of a refusal the line `refused N at K` at the start of `out`.
pub fn answer(
    file: &[u8],
    states: &mut [u16],
    tables: &mut [u8],
    marks: &mut [u8],
    verdicts: &mut [u8],
    out: &mut [u8],
) -> Result<Counts, Refused>
    requires { 128 ≤ length out.old }
    ensures { AnsweredIn file.now (record { states = states.entry.now; tables = tables.old; marks = marks.old; verdicts = verdicts.old }) (record { states = states.exit.now; tables = tables.new; marks = marks.new; verdicts = verdicts.new }) out.old out.new result }
{
    match analysis::analyse(file, states, tables, marks, verdicts) {
        Ok(counts) => Ok(counts),
        Err(refusal) => {
            let number = refusal.number();
            let place = refusal.place();
            let text = listing_text::put_refusal(out, 0, number, place);
            Err(Refused { refusal, text })
        }
    }
}

// What the listing of an accepted file is put together from: the parts of the buffers that its analysis filled.
pub fn findings<'a>(
    file: &'a [u8],
    known: &'a Known,
    counts: &Counts,
    states: &'a [u16],
    marks: &'a [u8],
    verdicts: &'a [u8],
) -> Findings<'a>
    requires filled { Filled file.now counts.now.states states.now marks.now verdicts.now × Knows known.now (fields_read file.now) }
    requires counts { (counts.now.atoms ≡ length (atoms_of file.now)) × (counts.now.rounds ≡ rounds_of file.now) }
    ensures file_value { result.file.now ≡ file.now }
    ensures results { Results result.file.now result.states.now result.marks.now result.verdicts.now × Knows result.known.now (fields_read result.file.now) }
    ensures counts { (result.atoms ≡ length (atoms_of result.file.now)) × (result.rounds ≡ rounds_of result.file.now) }
{
    let size = cells::cells_of(known.predicates(), counts.states);
    let queries = usize::from(known.count(Kind::Query));
    Findings {
        file,
        known,
        states: &states[..counts.states],
        marks: &marks[..size],
        verdicts: &verdicts[..queries],
        atoms: counts.atoms,
        rounds: counts.rounds,
    }
}
