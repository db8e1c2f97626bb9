// The refusals of one field, by what is known of the fields before it: 3, 6, 4 and 5, in this order.

#![tactic(auto)]

ghost use Rattle.std.specs.Prelude.{◌≤◌, ◌≡◌, List, map, take, drop, get_or, true, false, MatchOption, IfOk};
ghost use Rattle.std.proofs.Math.Option.{some};
ghost use Rattle.meaning.specs.Lists.{any_of, same};
ghost use Rattle.meaning.specs.Limits.{tag_of, most_of};
ghost use Rattle.meaning.specs.Fields.{Field, whole};
ghost use Rattle.meaning.specs.Refusals.{refusal, kind_of};
ghost use Rattle.fields.specs.Found.{contents_from};
ghost use Rattle.answers.specs.Refused.{answered};
ghost use Rattle.declarations.specs.Kinds.{meant, Decodes};
ghost use Rattle.declarations.specs.Tests.{wrong_tag_after, is_laid, is_malformed, taken_in, field_answer, Stands, CountsFit, known_symbols, known_predicates};

use answers::Refusal;
use fields::{Found, Section};

// A place for each tag, and none for 0.
pub const KINDS: usize = 7;

// The kinds of fields, by their tags.
#[derive(Clone, Copy, PartialEq, Eq)]
pub enum Kind {
    Symbol = meaning::SYMBOL_TAG as isize,
    Type = meaning::TYPE_TAG as isize,
    Production = meaning::PRODUCTION_TAG as isize,
    Predicate = meaning::PREDICATE_TAG as isize,
    Clause = meaning::CLAUSE_TAG as isize,
    Query = meaning::QUERY_TAG as isize,
}

// A tag that no kind has.
#[derive(Clone, Copy, PartialEq, Eq)]
pub struct UnknownTag(pub u8);

impl TryFrom<u8> for Kind {
    type Error = UnknownTag;

    ghost try_from_gives = { Decodes };

    fn try_from(tag: u8) -> Result<Self, UnknownTag> {
        match tag {
            meaning::SYMBOL_TAG => Ok(Kind::Symbol),
            meaning::TYPE_TAG => Ok(Kind::Type),
            meaning::PRODUCTION_TAG => Ok(Kind::Production),
            meaning::PREDICATE_TAG => Ok(Kind::Predicate),
            meaning::CLAUSE_TAG => Ok(Kind::Clause),
            meaning::QUERY_TAG => Ok(Kind::Query),
            _ => Err(UnknownTag(tag)),
        }
    }
}

impl Kind {
    // The place of the kind in arrays by tag.
    pub fn index(self) -> usize
        ensures { result ≡ tag_of (meant self) }
    {
        self as usize
    }

    // The most fields of the kind that a file may have.
    fn most(self) -> u8
        ensures { result ≡ most_of (meant self) }
    {
        match self {
            Kind::Symbol => meaning::MOST_SYMBOLS,
            Kind::Type => meaning::MOST_TYPES,
            Kind::Production => meaning::MOST_PRODUCTIONS,
            Kind::Predicate => meaning::MOST_PREDICATES,
            Kind::Clause => meaning::MOST_CLAUSES,
            Kind::Query => meaning::MOST_QUERIES,
        }
    }
}

// What reading keeps of the fields read so far: arrays of fixed length, since the library has no heap, apart from one another as `Knows` and the contracts
// above name each. The first two go by tag; their place 0 is not used.
#[derive(Clone, Copy, Default)]
pub struct Known {
    // How many fields of each kind there are.
    pub counts: [u8; KINDS],
    // Where the first field of each kind starts, 0 where there is none, as in `first_at`.
    pub starts: [usize; KINDS],
    // The arities of the symbols and of the predicates, with zeros behind them.
    pub symbols: [u8; meaning::MOST_SYMBOLS as usize],
    pub predicates: [u8; meaning::MOST_PREDICATES as usize],
}

impl Known {
    // How many fields of a kind there are.
    pub fn count(&self, kind: Kind) -> u8
        ensures { result ≡ get_or self.now.counts (tag_of (meant kind)) 0 }
    {
        self.counts[kind.index()]
    }

    // The arities of the symbols.
    pub fn symbols(&self) -> &[u8]
        requires { get_or self.now.counts 1 0 ≤ 24 }
        ensures { result.now ≡ known_symbols self.now }
    {
        &self.symbols[..usize::from(self.count(Kind::Symbol))]
    }

    // The arities of the predicates.
    pub fn predicates(&self) -> &[u8]
        requires { get_or self.now.counts 4 0 ≤ 16 }
        ensures { result.now ≡ known_predicates self.now }
    {
        &self.predicates[..usize::from(self.count(Kind::Predicate))]
    }

    // The fields of a kind in the file.
    pub fn section<'a>(&self, file: &'a [u8], kind: Kind) -> Section<'a>
        ensures { (result.bytes ≡ file.entry) × (result.from ≡ get_or self.now.starts (tag_of (meant kind)) 0) × (result.count ≡ get_or self.now.counts (tag_of (meant kind)) 0) }
    {
        Section {
            bytes: file,
            from: self.starts[kind.index()],
            count: self.count(kind),
        }
    }
}

// The kind of a tag, if it has one and is not below the tag before.
fn kind_after(tag: u8, last: u8) -> Option<Kind>
    ensures { MatchOption result (wrong_tag_after tag last ≡ true) (λ kind. (wrong_tag_after tag last ≡ false) × (kind_of tag ≡ some (meant kind))) }
{
    if tag < last {
        return None;
    }
    Kind::try_from(tag).ok()
}

// Whether a content is as laid out for its kind, its length aside, by what is declared.
fn is_laid_out(content: &[u8], kind: Kind, known: &Known) -> bool
    requires { CountsFit known.now }
    ensures { result ≡ is_laid known.now (tag_of (meant kind)) content.now }
{
    let types = known.count(Kind::Type);
    let symbols = known.symbols();
    let predicates = known.predicates();
    match kind {
        Kind::Symbol => names::is_named(content, meaning::MOST_SYMBOL_ARITY),
        Kind::Type => names::is_name(content),
        Kind::Production => names::is_production(content, types, symbols),
        Kind::Predicate => names::is_named(content, meaning::MOST_PREDICATE_ARITY),
        Kind::Clause => clauses::is_clause(content, symbols, predicates),
        Kind::Query => clauses::is_query(content, types, symbols, predicates),
    }
}

// Whether a content is over 250 bytes, or not as laid out.
fn is_malformed(content: &[u8], kind: Kind, known: &Known) -> bool
    requires { CountsFit known.now }
    ensures { result ≡ is_malformed known.now (tag_of (meant kind)) content.now }
{
    meaning::MOST_CONTENT < content.len() || !is_laid_out(content, kind, known)
}

// The bytes of a slice after the first few.
fn rest(s: &[u8], skip: usize) -> &[u8]
    ensures { result.now ≡ drop skip s.now }
{
    &s[skip.min(s.len())..]
}

// Whether a name stands in one of some fields, past the first few bytes of the content.
fn is_named_before(earlier: &Section, skip: usize, name: &[u8]) -> bool
    ensures { result ≡ any_of (same name.now) (map (drop skip) (contents_from earlier.now.count (drop earlier.now.from earlier.now.bytes.now))) }
{
    let mut at = earlier.from;
    for _ in 0..earlier.count {
        let Found::Whole(_, len) = fields::field_at(earlier.bytes, at) else {
            return false;
        };
        if name == rest(fields::content(earlier.bytes, at, len), skip) {
            return true;
        }
        at += fields::HEADER + len;
    }
    false
}

// Whether the name in a content is already used in its kind.
fn is_name_taken(earlier: &Section, kind: Kind, content: &[u8]) -> bool
    ensures { result ≡ taken_in (tag_of (meant kind)) (contents_from earlier.now.count (drop earlier.now.from earlier.now.bytes.now)) content.now }
{
    match kind {
        Kind::Symbol | Kind::Predicate => is_named_before(earlier, 1, rest(content, 1)),
        Kind::Type => is_named_before(earlier, 0, content),
        Kind::Production | Kind::Clause | Kind::Query => false,
    }
}

// The kind of field k, which has a tag and a content, or the first of 3, 6, 4, 5 that fits it.
pub fn judge_field(
    file: &[u8],
    content: &[u8],
    tag: u8,
    last: u8,
    known: &Known,
    k: usize,
) -> Result<Kind, Refusal>
    requires { CountsFit known.now }
    ensures kind { IfOk result (λ kind. tag ≡ tag_of (meant kind)) }
    ensures answer { (done : List Field) → Stands file.now known.now last done → answered result ≡ field_answer k (refusal done (whole tag content.now)) }
{
    let Some(kind) = kind_after(tag, last) else {
        return Err(Refusal::WrongTag(k));
    };
    let earlier = known.section(file, kind);
    if kind.most() <= earlier.count {
        return Err(Refusal::TooMany(k));
    }
    if is_malformed(content, kind, known) {
        return Err(Refusal::Malformed(k));
    }
    if is_name_taken(&earlier, kind, content) {
        return Err(Refusal::NameTaken(k));
    }
    Ok(kind)
}
