// What a call is refused with: a number from 1 to 14 and a place.

#![tactic(auto)]

ghost use Rattle.std.specs.Prelude.{◌≡◌};
ghost use Rattle.answers.specs.Refused.{refusal_answer};

// Why a call refuses, with the place: of a field, a sheet's field, a state or a clause its position, or how many fields there are.
#[derive(Clone, Copy, PartialEq, Eq)]
pub enum Refusal {
    // The file has over 32,768 bytes.
    TooLong,
    // Under 3 bytes are left, or the length passes the end.
    Cut(usize),
    // The tag is not 1 to 6, or below the one before.
    WrongTag(usize),
    // The content is not as laid out.
    Malformed(usize),
    // The name is already used in its kind.
    NameTaken(usize),
    // One more than the most of its kind.
    TooMany(usize),
    // No symbol of arity 0; after so many fields.
    NoConstant(usize),
    // More than 16 states exist; after so many fields.
    TooManyStates(usize),
    // A buffer other than the sheet's is shorter than needed.
    BufferTooShort,
    // A sheet's field is cut, of a wrong tag or length, a state after an atom, or of an undeclared predicate.
    SheetMisplaced(usize),
    // The first place where the sheet's states and the file's differ.
    SheetStatesDiffer(usize),
    // A sheet's field has a state that is not below m, or is an atom for the second time.
    SheetWrongAtom(usize),
    // The lowest clause with an instance whose body is in the sheet and whose head is not.
    SheetNotClosed(usize),
    // The buffer of the written sheet is too short.
    SheetBufferTooShort,
}

impl Refusal {
    // The number of the refusal, from 1 to 14.
    pub fn number(self) -> usize
        ensures { result ≡ (refusal_answer self).number }
    {
        match self {
            Refusal::TooLong => meaning::FILE_TOO_LONG,
            Refusal::Cut(_) => meaning::FIELD_CUT,
            Refusal::WrongTag(_) => meaning::WRONG_TAG,
            Refusal::Malformed(_) => meaning::MALFORMED,
            Refusal::NameTaken(_) => meaning::NAME_TAKEN,
            Refusal::TooMany(_) => meaning::TOO_MANY,
            Refusal::NoConstant(_) => meaning::NO_CONSTANT,
            Refusal::TooManyStates(_) => meaning::TOO_MANY_STATES,
            Refusal::BufferTooShort => meaning::BUFFER_TOO_SHORT,
            Refusal::SheetMisplaced(_) => meaning::SHEET_MISPLACED,
            Refusal::SheetStatesDiffer(_) => meaning::SHEET_STATES_DIFFER,
            Refusal::SheetWrongAtom(_) => meaning::SHEET_WRONG_ATOM,
            Refusal::SheetNotClosed(_) => meaning::SHEET_NOT_CLOSED,
            Refusal::SheetBufferTooShort => meaning::SHEET_BUFFER_TOO_SHORT,
        }
    }

    // The place, 0 where none is named.
    pub fn place(self) -> usize
        ensures { result ≡ (refusal_answer self).place }
    {
        match self {
            Refusal::TooLong | Refusal::BufferTooShort | Refusal::SheetBufferTooShort => 0,
            Refusal::Cut(k)
            | Refusal::WrongTag(k)
            | Refusal::Malformed(k)
            | Refusal::NameTaken(k)
            | Refusal::TooMany(k)
            | Refusal::NoConstant(k)
            | Refusal::TooManyStates(k)
            | Refusal::SheetMisplaced(k)
            | Refusal::SheetStatesDiffer(k)
            | Refusal::SheetWrongAtom(k)
            | Refusal::SheetNotClosed(k) => k,
        }
    }
}
