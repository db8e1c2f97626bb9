// Plays the rule files of data/base and data/full, each with its listing beside it, and compares.
// Prints a line for each difference, and the counts of each folder.

#![tactic(auto)]

ghost use Rattle.std.specs.Prelude.{◌+◌, ◌≤◌, ◌≡◌, true, not, ◌&&◌, eqb, length};
ghost use Rattle.meaning.specs.Lists.{same};
ghost use Rattle.meaning.specs.Calls.{rounds_of, atoms_of};
ghost use Rattle.answers.specs.Refused.{refusal_answer};
ghost use Rattle.declarations.specs.Known.{Knows, fields_read};
ghost use Rattle.listing_text.specs.Listing.{listing, Results};

use answers::Refusal;
use listing_text::Findings;
use std::io;

// Room for the domain atoms of the files played.
const MARKS: usize = 8192;

// Whether a listing is the pieces one after the other.
fn are_pieces(findings: &Findings, expected: &[u8], out: &mut [u8]) -> bool
    requires results { Results findings.now.file.now findings.now.states.now findings.now.marks.now findings.now.verdicts.now × Knows findings.now.known.now (fields_read findings.now.file.now) }
    requires counts { (findings.now.atoms ≡ length (atoms_of findings.now.file.now)) × (findings.now.rounds ≡ rounds_of findings.now.file.now) × (128 ≤ length out.old) }
    ensures { result ≡ true → expected.now ≡ listing findings.now.file.now }
{
    let mut rest = expected;
    for k in 0..findings.piece_count() {
        let n = findings.put_piece(out, 0, k);
        let Some(later) = rest.strip_prefix(&out[..n]) else {
            return false;
        };
        rest = later;
    }
    rest.is_empty()
}

// Whether a listing is the text of a refusal. One with 9 is about the buffers, and stands in no listing.
fn is_refusal(refusal: Refusal, text: &[u8], expected: &[u8]) -> bool
    ensures { result ≡ (not (eqb (refusal_answer refusal).number 9) && same text.now expected.now) }
{
    refusal.number() != meaning::BUFFER_TOO_SHORT && text == expected
}

// Whether a listing is that of a file. The buffers are as long as any file needs, but for the marks.
fn is_listing(file: &[u8], expected: &[u8]) -> bool
    ensures { result ≡ true → expected.now ≡ listing file.now }
{
    let mut states = [0u16; buffers::STATES];
    let mut tables = [0u8; buffers::TABLES];
    let mut marks = [0u8; MARKS];
    let mut verdicts = [0u8; buffers::VERDICTS];
    let mut out = [0u8; listing_text::PIECE];
    let answered = listing_answer::answer(
        file,
        &mut states,
        &mut tables,
        &mut marks,
        &mut verdicts,
        &mut out,
    );
    let counts = match answered {
        Ok(counts) => counts,
        Err(refused) => return is_refusal(refused.refusal, &out[..refused.text], expected),
    };
    let known = parser::read(file).known;
    let findings = listing_answer::findings(file, &known, &counts, &states, &marks, &verdicts);
    are_pieces(&findings, expected, &mut out)
}

fn main(rt: HostRuntime) -> io::Result<()> {
    let compare = |file: &[u8], expected: &[u8]| is_listing(file, expected);
    folders::play(
        &rt,
        b"base",
        *b"base/000.rules",
        *b"base/000.listing",
        b"other listing",
        &compare,
    )?;
    folders::play(
        &rt,
        b"full",
        *b"full/000.rules",
        *b"full/000.listing",
        b"other listing",
        &compare,
    )?;
    Ok(())
}
