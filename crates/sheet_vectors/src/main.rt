// Plays the rule files of data/pass and data/made, each with what stands beside it, and compares: of pass the answer to a sheet and the tables, of
// made the sheet that is written.
// Prints a line for each difference, and the counts of each folder.

#![tactic(auto)]

ghost use Rattle.std.specs.Prelude.{◌+◌, ◌≤◌, ◌<◌, ◌≡◌, true, length, get_or};
ghost use Rattle.meaning.specs.Fields.{word};
ghost use Rattle.sheet_vectors.specs.Expected.{IsSheet};

use std::io;

// Room for the domain atoms of the files played, and for a sheet.
const MARKS: usize = 8192;

const SHEET: usize = 8192;

// Where the place, and how many table cells there are, begin in what is expected of a sheet.
const PLACE: usize = 1;

const COUNT: usize = 3;

// Two bytes from a place on as a number, high byte first.
fn word_at(s: &[u8], at: usize) -> usize
    requires { at + 2 ≤ length s.now }
    ensures { (result ≡ word (get_or s.now at 0) (get_or s.now (at + 1) 0)) × (result < 65536) }
{
    usize::from(u16::from_be_bytes([s[at], s[at + 1]]))
}

// Whether a sheet for a file is answered, and the file's tables written, as expected. What is expected: the answer's number, its place in two bytes, how
// many table cells there are in two, these, and the sheet itself.
fn is_checked(file: &[u8], expected: &[u8]) -> bool {
    let [number, _, _, _, _, rest @ ..] = expected else {
        return false;
    };
    let place = word_at(expected, PLACE);
    let count = word_at(expected, COUNT);
    let Some((cells, sheet)) = rest.split_at_checked(count) else {
        return false;
    };
    let mut tables = [0u8; buffers::TABLES];
    let mut marks = [0u8; MARKS];
    let (answer, at) = match sheet_check::check(file, sheet, &mut tables, &mut marks) {
        Ok(()) => (0, 0),
        Err(refusal) => (refusal.number(), refusal.place()),
    };
    answer == usize::from(*number) && at == place && tables.starts_with(cells)
}

// Whether some bytes are the sheet that is written for a file.
fn is_sheet(file: &[u8], expected: &[u8]) -> bool
    ensures { result ≡ true → IsSheet file.now expected.now }
{
    let mut states = [0u16; buffers::STATES];
    let mut tables = [0u8; buffers::TABLES];
    let mut marks = [0u8; MARKS];
    let mut verdicts = [0u8; buffers::VERDICTS];
    let mut sheet = [0u8; SHEET];
    let written = certificate::write(
        file,
        &mut states,
        &mut tables,
        &mut marks,
        &mut verdicts,
        &mut sheet,
    );
    match written {
        Ok(written) => &sheet[..written.bytes] == expected,
        Err(_) => false,
    }
}

fn main(rt: HostRuntime) -> io::Result<()> {
    folders::play(
        &rt,
        b"pass",
        *b"pass/000.rules",
        *b"pass/000.check",
        b"other answer to the sheet, or other tables",
        |file, beside| is_checked(file, beside),
    )?;
    folders::play(
        &rt,
        b"made",
        *b"made/000.rules",
        *b"made/000.sheet",
        b"other sheet",
        |file, beside| is_sheet(file, beside),
    )?;
    Ok(())
}
