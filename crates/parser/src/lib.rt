// A rule file read and judged: refusals 1 to 7, and what was read.

#![tactic(auto)]

ghost use Rattle.std.specs.Prelude.{ℕ, ◌≤◌, ◌<◌, ◌≡◌, not, List, [], ◌∷◌, ◌++◌, T, length, get_or};
ghost use Rattle.meaning.specs.Lists.{All};
ghost use Rattle.meaning.specs.Limits.{tag_of};
ghost use Rattle.meaning.specs.Fields.{Field, whole};
ghost use Rattle.meaning.specs.Refusals.{first_byte, is_cut, refuse_if, no_constant};
ghost use Rattle.meaning.specs.Files.{read_answer};
ghost use Rattle.answers.specs.Refused.{answered};
ghost use Rattle.declarations.specs.Kinds.{meant};
ghost use Rattle.declarations.specs.Known.{Knows, fields_read};
ghost use Rattle.declarations.specs.Tests.{CountsFit, known_symbols};
ghost use Rattle.parser.specs.Read.{room_for, bytes_in, Outcome};

use answers::Refusal;
use declarations::{Kind, Known};
use fields::Found;

// Nothing is read yet.
fn nothing() -> Known
    ensures { Knows result [] }
{
    Known::default()
}

// One field more is known, by its kind, its first content byte and its place.
fn add_field(known: &mut Known, kind: Kind, first: u8, at: usize)
    requires { get_or known.old.counts (tag_of (meant kind)) 0 < room_for (tag_of (meant kind)) }
    ensures { (done : List Field) (content : List ℕ) → Knows known.old done → All (λ f. T (not (is_cut f))) done → bytes_in done ≡ at → first_byte content ≡ first → Knows known.new (done ++ (whole (tag_of (meant kind)) content ∷ [])) }
{
    let t = kind.index();
    let n = known.counts[t];
    known.counts[t] = n + 1;
    if n == 0 {
        known.starts[t] = at;
    }
    match kind {
        Kind::Symbol => known.symbols[usize::from(n)] = first,
        Kind::Predicate => known.predicates[usize::from(n)] = first,
        _ => {}
    }
}

// The first byte, 0 of an empty slice.
fn first_of(s: &[u8]) -> u8
    ensures { result ≡ first_byte s.now }
{
    s.first().copied().unwrap_or(0)
}

// Whether a file is refused, and beside it what was read before that, which is promised on refusal too (`fields_read`).
#[derive(Clone, Copy)]
pub struct Reading {
    pub outcome: Result<(), Refusal>,
    pub known: Known,
}

// After k fields, of which none is refused: 7 if no symbol is a constant.
fn ending(known: &Known, k: usize) -> Result<(), Refusal>
    requires { CountsFit known.now }
    ensures { answered result ≡ refuse_if (no_constant (known_symbols known.now)) 7 k }
{
    if byte_runs::contains(known.symbols(), 0) {
        Ok(())
    } else {
        Err(Refusal::NoConstant(k))
    }
}

// The fields one after the other, to the first that is refused or to the end of the file.
fn read_fields(file: &[u8], known: &mut Known) -> Result<(), Refusal>
    requires short { length file.now ≤ 32768 }
    requires nothing { Knows known.old [] }
    ensures { Outcome file.now (answered result) known.new }
{
    let mut at = 0;
    let mut k = 0;
    // 0 before the first field, as in `last_tag` of the meaning.
    let mut last = 0;
    // A loop that counts k: as `for k in 0..=n` it would need a way out behind it that no file takes.
    loop {
        match fields::field_at(file, at) {
            Found::Whole(tag, len) => {
                let content = fields::content(file, at, len);
                let kind = declarations::judge_field(file, content, tag, last, known, k)?;
                add_field(known, kind, first_of(content), at);
                last = tag;
                at += fields::HEADER + len;
                k += 1;
            }
            Found::Cut => return Err(Refusal::Cut(k)),
            Found::End => return ending(known, k),
        }
    }
}

// A rule file read: accepted, or refused with 1 to 7; and what was read before the refusal.
pub fn read(file: &[u8]) -> Reading
    ensures { (answered result.outcome ≡ read_answer file.now) × Knows result.known (fields_read file.now) }
{
    let mut known = nothing();
    if meaning::MOST_FILE_BYTES < file.len() {
        return Reading {
            outcome: Err(Refusal::TooLong),
            known,
        };
    }
    let outcome = read_fields(file, &mut known);
    Reading { outcome, known }
}
