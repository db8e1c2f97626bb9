// The states of a rule file, rising, or that there are more than 16; and the tables over them.

#![tactic(auto)]

ghost use Rattle.std.specs.Prelude.{ℕ, ◌+◌, ◌-◌, ◌≤◌, ◌<◌, ◌≡◌, ◌++◌, [], ltb, length, take, drop};
ghost use Rattle.meaning.specs.Limits.{most_states};
ghost use Rattle.meaning.specs.Types.{step, signature};
ghost use Rattle.meaning.specs.Cells.{cells};
ghost use Rattle.meaning.specs.States.{insert_rising, insert_all, index_of, grow, tables};
ghost use Rattle.meaning.specs.Refusals.{refuse_if};
ghost use Rattle.meaning.specs.Files.{states_for};
ghost use Rattle.states.specs.Asked.{Determinable, productions_at};
ghost use Rattle.states.specs.Packed.{place_for, put_at, Holds, held, packed, count_answer, indices};

use fields::Section;

// The most states.
const MOST: usize = meaning::MOST_STATES;

// Room for the sets of as many symbols as there may be, of arity 2, over them.
const CELLS: usize = meaning::MOST_SYMBOLS as usize * MOST * MOST;

// At most 16 states, rising, with zeros behind them.
#[derive(Clone, Copy)]
pub struct States {
    pub count: usize,
    pub sets: [u16; MOST],
}

// There are more than 16 states.
#[derive(Clone, Copy)]
pub struct TooMany;

impl States {
    // No state.
    pub fn none() -> States
        ensures { result ≡ held [] }
    {
        States {
            count: 0,
            sets: [0; MOST],
        }
    }

    // The states, without the zeros behind them.
    pub fn as_slice(&self) -> &[u16]
        requires { self.now.count ≤ most_states }
        ensures { result.now ≡ take self.now.count self.now.sets }
    {
        &self.sets[..self.count]
    }

    // With one set more, once; they rise.
    fn put(self, set: u16) -> Result<States, TooMany>
        requires { Holds self.sets self.count }
        ensures { result ≡ packed (insert_rising set (take self.count self.sets)) }
    {
        let States { count, sets } = self;
        let known = &sets[..count];
        let i = place(known, set);
        if i < known.len() && known[i] == set {
            return Ok(self);
        }
        if count == MOST {
            return Err(TooMany);
        }
        Ok(States {
            count: count + 1,
            sets: shift(sets, i, count, set),
        })
    }

    // With all of some sets, from the last to the first.
    fn put_all(self, new: &[u16]) -> Result<States, TooMany>
        requires { Holds self.sets self.count }
        ensures { result ≡ packed (insert_all new.now (take self.count self.sets)) }
    {
        let mut known = self;
        for &set in new.iter().rev() {
            known = known.put(set)?;
        }
        Ok(known)
    }

    // One turn: all sets that the symbols give over these are put among them.
    fn turn(self, section: &Section, arities: &[u8]) -> Result<States, TooMany>
        requires holds { Holds self.sets self.count }
        requires by_index { (types : ℕ) × Determinable section.now.bytes.now section.now.from section.now.count arities.now types }
        ensures { (types : ℕ) → Determinable section.now.bytes.now section.now.from section.now.count arities.now types → result ≡ packed (grow (step (productions_at section.now.bytes.now section.now.from section.now.count) types) (signature arities.now) (take self.count self.sets)) }
    {
        let mut sets = [0u16; CELLS];
        automaton::fill(&mut sets, self.as_slice(), arities, section);
        let all = cells::cells_of(arities, self.count);
        self.put_all(&sets[..all])
    }
}

// The first place with a set whose number is not below that of one.
fn place(states: &[u16], set: u16) -> usize
    ensures { result ≡ place_for set states.now }
{
    states
        .iter()
        .position(|s| set <= *s)
        .unwrap_or(states.len())
}

// A set put at place i, and those from there to place n moved one place on.
fn shift(sets: [u16; MOST], i: usize, n: usize, set: u16) -> [u16; MOST]
    requires { (i ≤ n) × (n < most_states) }
    ensures { result ≡ put_at sets i n set }
{
    let mut more = sets;
    more.copy_within(i..n, i + 1);
    more[i] = set;
    more
}

// The states: turn after turn, until nothing is new or there are more than 16.
pub fn determinise(section: &Section, arities: &[u8]) -> Result<States, TooMany>
    requires { (types : ℕ) × Determinable section.now.bytes.now section.now.from section.now.count arities.now types }
    ensures { (types : ℕ) → Determinable section.now.bytes.now section.now.from section.now.count arities.now types → (result ≡ packed (states_for arities.now types (productions_at section.now.bytes.now section.now.from section.now.count))) × ((k : ℕ) → count_answer k result ≡ refuse_if (ltb most_states (length (states_for arities.now types (productions_at section.now.bytes.now section.now.from section.now.count)))) 8 k) }
{
    let mut known = States::none();
    loop {
        let more = known.turn(section, arities)?;
        if more.count == known.count {
            return Ok(more);
        }
        known = more;
    }
}

// The number of a set among the states, their count if it is none of them. Not one function with `place`, since they have only the walk in common, which is
// `position` already: the tests differ, and each has a definition of its own to meet (`place_for`, `index_of`).
fn find(states: &[u16], set: u16) -> usize
    ensures { result ≡ index_of set states.now }
{
    states
        .iter()
        .position(|s| set == *s)
        .unwrap_or(states.len())
}

// The numbers of some sets among the states.
fn write_indices(tables: &mut [u8], states: &[u16], sets: &[u16])
    requires { (length states.now ≤ most_states) × (length sets.now ≤ length tables.old) }
    ensures { tables.new ≡ indices states.now sets.now ++ drop (length sets.now) tables.old }
{
    for (i, &set) in sets.iter().enumerate() {
        tables[i] = find(states, set) as u8;
    }
}

// The tables over some states: the number of each set that the symbols give over all rows of them. The states and the arities stay two slices, no struct: an
// Automaton has no sets but the tables over them, which are only written here.
pub fn write_tables(buffer: &mut [u8], states: &[u16], arities: &[u8], section: &Section)
    requires states_len_bound { (length states.now ≤ most_states) × (cells (length states.now) arities.now ≤ length buffer.old) }
    requires by_index { (types : ℕ) × Determinable section.now.bytes.now section.now.from section.now.count arities.now types }
    ensures { (types : ℕ) → Determinable section.now.bytes.now section.now.from section.now.count arities.now types → buffer.new ≡ tables (step (productions_at section.now.bytes.now section.now.from section.now.count) types) states.now arities.now ++ drop (cells (length states.now) arities.now) buffer.old }
{
    let mut sets = [0u16; CELLS];
    automaton::fill(&mut sets, states, arities, section);
    let all = cells::cells_of(arities, states.len());
    write_indices(buffer, states, &sets[..all]);
}
