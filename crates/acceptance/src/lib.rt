// A rule file accepted, or refused with 1 to 8: read, and its states found. What every public call starts with.

#![tactic(auto)]

ghost use Rattle.std.specs.Prelude.{◌≡◌, ◌≤◌, length, drop, sum, IfOk};
ghost use Rattle.meaning.specs.Files.{read_answer, file_answer};
ghost use Rattle.meaning.specs.Calls.{states_of, tables_of, written};
ghost use Rattle.declarations.specs.Known.{Knows, fields_read};
ghost use Rattle.answers.specs.Refused.{answered};
ghost use Rattle.states.specs.Packed.{held};
ghost use Rattle.acceptance.specs.Accepted.{IsAccepted};

use answers::Refusal;
use declarations::{Kind, Known};
use evaluation::{Automaton, Predicates};
use parser::Reading;
use states::{States, TooMany};

// What was read of a file, and its states, or why it is refused. What was read stands outside of the Result: `accept` promises it of a refused file too.
#[derive(Clone, Copy)]
pub struct Acceptance {
    pub known: Known,
    pub states: Result<States, Refusal>,
}

// An accepted file, with what is known of it and its states.
#[derive(Clone, Copy)]
pub struct Accepted<'a> {
    pub file: &'a [u8],
    pub known: &'a Known,
    pub states: &'a [u16],
}

// What is handed on of an accepted file once its tables are written: with its automaton and its predicates.
#[derive(Clone, Copy)]
pub struct HandedFile<'a> {
    pub accepted: Accepted<'a>,
    pub automaton: Automaton<'a>,
    pub predicates: Predicates<'a>,
}

// How many fields were read.
fn field_count(known: &Known) -> usize
    ensures { result ≡ sum (drop 1 known.now.counts) }
{
    known.counts[1..].iter().map(|&n| usize::from(n)).sum()
}

// The states of a file, if it is accepted.
fn states_of(file: &[u8], reading: &Reading) -> Result<States, Refusal>
    requires { (answered reading.now.outcome ≡ read_answer file.now) × Knows reading.now.known (fields_read file.now) }
    ensures answer { answered result ≡ file_answer file.now }
    ensures states { IfOk result (λ s. s ≡ held (states_of file.now)) }
{
    reading.outcome?;
    let known = &reading.known;
    let section = known.section(file, Kind::Production);
    match states::determinise(&section, known.symbols()) {
        Ok(states) => Ok(states),
        Err(TooMany) => Err(Refusal::TooManyStates(field_count(known))),
    }
}

// What was read of a file, and its states, or why it is refused.
pub fn accept(file: &[u8]) -> Acceptance
    ensures { (answered result.states ≡ file_answer file.now) × Knows result.known (fields_read file.now) × IfOk result.states (λ s. s ≡ held (states_of file.now)) }
{
    let reading = parser::read(file);
    let states = states_of(file, &reading);
    let known = reading.known;
    Acceptance { known, states }
}

// The tables of an accepted file, written to the front of a buffer.
pub fn write_file_tables(buffer: &mut [u8], accepted: &Accepted)
    requires { IsAccepted accepted.now.file.now accepted.now.known.now accepted.now.states.now × (length (tables_of accepted.now.file.now) ≤ length buffer.old) }
    ensures { buffer.new ≡ written (tables_of accepted.now.file.now) buffer.old }
{
    let known = accepted.known;
    let section = known.section(accepted.file, Kind::Production);
    states::write_tables(buffer, accepted.states, known.symbols(), &section);
}
