// Reads a rule file on standard input and prints its listing: its states, model and verdicts, or its refusal.

#![tactic(auto)]

ghost use Rattle.std.specs.Prelude.{◌+◌, ◌≤◌, ◌≡◌, IfOk, length};
ghost use Rattle.meaning.specs.Calls.{rounds_of, atoms_of};
ghost use Rattle.declarations.specs.Known.{Knows, fields_read};
ghost use Rattle.listing_text.specs.Listing.{Results};

use listing_text::Findings;
use std::io;
use std::io::Read;

// How much of a rule file is read: of a longer file this start is refused as the whole is.
const FILE: u64 = 65536;

// Room for the pieces of a listing that are written out at a time: as much as a pipe takes whole. On the stack, since a `BufWriter` takes its buffer from the heap.
const OUT: usize = 4096;

// Where the next piece is put: after the last one, or at the start of the buffer, which is written out where it has no room for a piece.
fn flush(rt: &impl Print, out: &[u8], at: usize) -> io::Result<usize>
    requires { (at ≤ length out.now) × (128 ≤ length out.now) }
    ensures { IfOk result (λ next. next + 128 ≤ length out.now) }
{
    if out.len() - at < listing_text::PIECE {
        rt.write_all(&out[..at])?;
        return Ok(0);
    }
    Ok(at)
}

// The pieces of a listing one after the other, as many at a time as the buffer holds.
fn write_pieces(rt: &impl Print, findings: &Findings, out: &mut [u8]) -> io::Result<()>
    requires results { Results findings.now.file.now findings.now.states.now findings.now.marks.now findings.now.verdicts.now × Knows findings.now.known.now (fields_read findings.now.file.now) }
    requires counts { (findings.now.atoms ≡ length (atoms_of findings.now.file.now)) × (findings.now.rounds ≡ rounds_of findings.now.file.now) × (128 ≤ length out.old) }
{
    let mut at = 0;
    for k in 0..findings.piece_count() {
        let next = flush(rt, out, at)?;
        at = findings.put_piece(out, next, k);
    }
    rt.write_all(&out[..at])
}

// The listing of a file. The buffers are as long as any file needs.
fn write_listing(rt: &impl Print, file: &[u8]) -> io::Result<()> {
    let mut states = [0u16; buffers::STATES];
    let mut tables = [0u8; buffers::TABLES];
    let mut marks = [0u8; buffers::MARKS];
    let mut verdicts = [0u8; buffers::VERDICTS];
    let mut out = [0u8; OUT];
    let answered = listing_answer::answer(
        file,
        &mut states,
        &mut tables,
        &mut marks,
        &mut verdicts,
        &mut out,
    );
    let counts = match answered {
        Ok(counts) => counts,
        Err(refused) => return rt.write_all(&out[..refused.text]),
    };
    let known = parser::read(file).known;
    let findings = listing_answer::findings(file, &known, &counts, &states, &marks, &verdicts);
    write_pieces(rt, &findings, &mut out)
}

fn main(rt: HostRuntime) -> io::Result<()> {
    let mut file = Vec::new(rt.alloc());
    rt.reader().take(FILE).read_to_end(&mut file)?;
    write_listing(&rt, &file)
}
