// Sets of types, and the sets that the symbols give over all rows of some sets.

#![tactic(auto)]

ghost use Rattle.std.specs.Prelude.{ℕ, ◌≤◌, ◌<◌, ◌≡◌, ◌++◌, map, length, drop};
ghost use Rattle.std.specs.Int.Bits.{bit_or};
ghost use Rattle.meaning.specs.Types.{has};
ghost use Rattle.meaning.specs.Cells.{cells};
ghost use Rattle.meaning.specs.Legal.{WellProduction};
ghost use Rattle.meaning.specs.Files.{production_of};
ghost use Rattle.fields.specs.Found.{contents_from};
ghost use Rattle.automaton.specs.Sets.{added, given_sets};
ghost use Rattle.automaton.specs.Marking.{mark_rows, mark_production, Markable, Fillable, AreProductions};

use bitsets::Set;
use fields::{Found, Section};

// A set of types: type t is bit t. It is handed in and handed back, never altered behind the caller.
#[derive(Clone, Copy)]
pub struct TypeSet {
    pub bits: u16,
}

impl TypeSet {
    // The set with no type.
    pub fn none() -> TypeSet
        ensures { result.bits ≡ 0 }
    {
        TypeSet { bits: 0 }
    }

    // Whether a type is in the set.
    pub fn has(self, t: u8) -> bool
        requires { t < 16 }
        ensures { result ≡ has self.bits t }
    {
        self.bits.holds(t)
    }

    // The set with one type added.
    pub fn with(self, t: u8) -> TypeSet
        requires { t < 16 }
        ensures { result.bits ≡ added self.bits t }
    {
        TypeSet {
            bits: self.bits.with(t),
        }
    }

    // The types of either set.
    pub fn join(self, other: TypeSet) -> TypeSet
        ensures { result.bits ≡ bit_or self.bits other.bits }
    {
        TypeSet {
            bits: self.bits.either(other.bits),
        }
    }
}

// Joins a set of types into the cells of all rows that fit some arguments: the state at each place holds the type that is asked for there.
// `cell` is the cell of the states chosen so far; the segment of the symbol starts at `start`.
fn mark_rows(
    sets: &mut [u16],
    start: usize,
    states: &[u16],
    arguments: &[u8],
    cell: usize,
    more: TypeSet,
)
    requires { Markable states.now start arguments.now cell sets.old }
    ensures { sets.new ≡ mark_rows states.now start more.bits arguments.now cell sets.old }
{
    let [t, later @ ..] = arguments else {
        let at = start + cell;
        let joined = TypeSet { bits: sets[at] }.join(more);
        sets[at] = joined.bits;
        return;
    };
    for (d, &state) in states.iter().enumerate() {
        if (TypeSet { bits: state }).has(*t) {
            mark_rows(sets, start, states, later, cell * states.len() + d, more);
        }
    }
}

// Adds what one production gives: its target, over all rows that fit its arguments.
fn mark_production(sets: &mut [u16], states: &[u16], arities: &[u8], content: &[u8])
    requires { Fillable states.now arities.now sets.old × (2 ≤ length content.now) × WellProduction 16 arities.now (production_of content.now) }
    ensures { sets.new ≡ mark_production states.now arities.now (production_of content.now) sets.old }
{
    let start = cells::start_of(arities, states.len(), usize::from(content[1]));
    let target = TypeSet::none().with(content[0]);
    mark_rows(
        sets,
        start,
        states,
        &content[meaning::ARGUMENTS..],
        0,
        target,
    );
}

// The sets that the symbols give over all rows of some sets, symbol after symbol: one pass over the productions.
pub fn fill(sets: &mut [u16], states: &[u16], arities: &[u8], section: &Section)
    requires fillable { Fillable states.now arities.now sets.old }
    requires by_index { (types : ℕ) × (types ≤ 16) × AreProductions types arities.now section.now.count (contents_from section.now.count (drop section.now.from section.now.bytes.now)) }
    ensures { (types : ℕ) → types ≤ 16 → AreProductions types arities.now section.now.count (contents_from section.now.count (drop section.now.from section.now.bytes.now)) → sets.new ≡ given_sets (map production_of (contents_from section.now.count (drop section.now.from section.now.bytes.now))) types states.now arities.now ++ drop (cells (length states.now) arities.now) sets.old }
{
    let all = cells::cells_of(arities, states.len());
    sets[..all].fill(0);
    let mut at = section.from;
    for _ in 0..section.count {
        let Found::Whole(_, len) = fields::field_at(section.bytes, at) else {
            return;
        };
        let content = fields::content(section.bytes, at, len);
        mark_production(sets, states, arities, content);
        at += fields::HEADER + len;
    }
}
