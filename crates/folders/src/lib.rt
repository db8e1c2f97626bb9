// What the programs that play a folder of vectors share: the paths of its numbered files, files read into lent buffers, and what is printed.

#![tactic(auto)]

ghost use Rattle.std.specs.Prelude.{◌≤◌, ◌<◌, ◌≡◌, IfOk, IfSome, length};
ghost use Rattle.std.specs.Fn.{FnReturnsAtPair};
ghost use Rattle.folders.specs.Counts.{IsPrefixLen};
ghost use Rattle.folders.specs.Paths.{numbered_path};

use std::fs::File;
use std::io;
use std::io::ErrorKind;
use std::rt::Files;

// The most files of a folder: their numbers have three digits.
pub const FILES: usize = 1000;

// Room for a rule file, and for what stands beside one and a byte more.
const FILE: usize = 65536;

const TEXT: usize = 8192;

// How a file compares with what stands beside it.
enum Outcome {
    // There is no such file.
    Missing,
    Same,
    Different,
}

// How many files of a folder were played, and how many of them differ from what stands beside them.
#[derive(Drop)]
pub struct Played {
    pub files: usize,
    pub differences: usize,
}

// A line about a file. Bytes and no text, as a path need not be one.
fn print_about(rt: &impl Print, path: &[u8], what: &[u8]) -> io::Result<()> {
    rt.write_all(path)?;
    rt.write_all(b": ")?;
    rt.write_all(what)?;
    rt.write_all(b"\n")
}

// The last line about a folder, whose counts are handed back.
fn print_counts(
    rt: &impl Print,
    folder: &[u8],
    files: usize,
    differences: usize,
) -> io::Result<Played>
    ensures { IfOk result (λ p. (p.files ≡ files) × (p.differences ≡ differences)) }
{
    rt.write_all(folder)?;
    println!(rt; ": {files} files, {differences} differences")?;
    Ok(Played { files, differences })
}

// The path of file k, by its three digits, which stand after a folder of four letters. A path stays bytes that are changed in place, as `numbered_path` of the
// contract says.
pub fn put_digits(path: &mut [u8], k: usize)
    requires { (8 ≤ length path.old) × (k < 1000) }
    ensures { path.new ≡ numbered_path path.old k }
{
    path[5] = b'0' + (k / 100) as u8;
    path[6] = b'0' + (k / 10 % 10) as u8;
    path[7] = b'0' + (k % 10) as u8;
}

// Reads until the buffer is full or the reader ends, and hands back how many bytes are at the buffer's start. A read that a signal interrupts is tried again.
// The library's `read_exact` fails where the file is shorter than the buffer, and its `read_to_end` wants a heap.
fn read_full(reader: &mut impl io::Read, buffer: &mut [u8]) -> io::Result<usize>
    ensures { IfOk result (λ n. IsPrefixLen n buffer.new) }
{
    let mut done = 0;
    for _ in 0..u64::MAX {
        match reader.read(&mut buffer[done..]) {
            Ok(0) => break,
            Ok(n) => done += n,
            Err(error) if error.kind() == ErrorKind::Interrupted => {}
            Err(error) => return Err(error),
        }
    }
    Ok(done)
}

// A file, or as much of its start as the buffer holds: how many bytes of it are at the buffer's start. A file that cannot be opened counts as none; a read
// that fails leaves any bytes in the buffer.
pub fn read_file(rt: &impl Files, path: &[u8], buffer: &mut [u8]) -> io::Result<Option<usize>>
    ensures read { IfOk result (λ r. IfSome r (λ n. IsPrefixLen n buffer.new)) }
    ensures size { length buffer.new ≡ length buffer.old }
{
    let Ok(name) = str::from_utf8(path) else {
        return Err(io::Error::from(ErrorKind::InvalidInput));
    };
    let Ok(mut file) = File::open(rt, name) else {
        return Ok(None);
    };
    Ok(Some(read_full(&mut file, buffer)?))
}

// What stands beside a rule file. It must leave a byte of the buffer, so that all of it was read; if it does not, or is missing, that is printed.
pub fn read_beside(
    rt: &(impl Files + Print),
    path: &[u8],
    buffer: &mut [u8],
) -> io::Result<Option<usize>>
    ensures read { IfOk result (λ r. IfSome r (λ n. IsPrefixLen n buffer.new)) }
    ensures size { length buffer.new ≡ length buffer.old }
{
    let Some(n) = read_file(rt, path, buffer)? else {
        print_about(rt, path, b"missing")?;
        return Ok(None);
    };
    if n == buffer.len() {
        print_about(rt, path, b"too long")?;
        return Ok(None);
    }
    Ok(Some(n))
}

// Whether a rule file is as what stands beside it says; if not, that is printed.
fn is_same<F: Fn(&[u8], &[u8]) -> bool>(
    rt: &impl Print,
    path: &[u8],
    file: &[u8],
    beside: &[u8],
    other: &[u8],
    compare: F,
) -> io::Result<bool>
    requires { F.IsAlwaysCallable compare }
    ensures { IfOk result (FnReturnsAtPair F.Fn compare file.now beside.now) }
{
    if compare(file, beside) {
        return Ok(true);
    }
    print_about(rt, path, other)?;
    Ok(false)
}

// How a rule file compares with what stands beside it, by their paths; `other` is printed of one that differs. Of a longer file than the buffer holds the
// start is refused as the whole is.
fn play_file<F: Fn(&[u8], &[u8]) -> bool>(
    rt: &(impl Files + Print),
    rules: &[u8],
    beside: &[u8],
    other: &[u8],
    compare: F,
) -> io::Result<Outcome>
    requires { F.IsAlwaysCallable compare }
{
    let mut file = [0u8; FILE];
    let Some(n) = read_file(rt, rules, &mut file)? else {
        return Ok(Outcome::Missing);
    };
    let mut text = [0u8; TEXT];
    let Some(m) = read_beside(rt, beside, &mut text)? else {
        return Ok(Outcome::Different);
    };
    if is_same(rt, rules, &file[..n], &text[..m], other, compare)? {
        return Ok(Outcome::Same);
    }
    Ok(Outcome::Different)
}

// Plays the files of a folder, from 000 to the first that is missing, and prints how many there are. The paths are those of its first rule file and of
// what stands beside that; `compare` is handed the bytes of a rule file and those beside it, and says whether they are as they should be; `other` is
// printed if they are not. What is printed no clause can speak of.
pub fn play<const R: usize, const B: usize, F: Fn(&[u8], &[u8]) -> bool>(
    rt: &(impl Files + Print),
    folder: &[u8],
    mut rules: [u8; R],
    mut beside: [u8; B],
    other: &[u8],
    compare: F,
) -> io::Result<Played>
    requires paths { (8 ≤ R) × (8 ≤ B) }
    requires callable { F.IsAlwaysCallable compare }
    ensures { IfOk result (λ p. (p.differences ≤ p.files) × (p.files ≤ 1000)) }
{
    let mut differences = 0;
    for k in 0..FILES {
        put_digits(&mut rules, k);
        put_digits(&mut beside, k);
        match play_file(rt, &rules, &beside, other, &compare)? {
            Outcome::Missing => return print_counts(rt, folder, k, differences),
            Outcome::Same => {}
            Outcome::Different => differences += 1,
        }
    }
    print_counts(rt, folder, FILES, differences)
}
