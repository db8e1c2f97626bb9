// A sheet read field by field: a struct that holds the sheet's bytes and a position in them, and thin methods over it. The work is done by `fields`,
// over a plain slice and a position. What a search of a sheet for a refusal finds is the lowest place that it fits, if there is one (`fault_answer`).

#![tactic(auto)]

ghost use Rattle.std.specs.Prelude.{◌+◌, ◌≡◌, T, drop};
ghost use Rattle.meaning.specs.Fields.{front_of};
ghost use Rattle.fields.specs.Found.{found_in, is_whole, content_in, next_in};
ghost use Rattle.sheet_reader.specs.Tags.{tag_in};

use fields::Found;

// A position in some bytes.
#[derive(Clone, Copy)]
pub struct Reader<'a> {
    pub bytes: &'a [u8],
    pub at: usize,
}

impl<'a> Reader<'a> {
    // A reader at a position of some bytes.
    pub fn start_at(bytes: &'a [u8], at: usize) -> Reader<'a>
        ensures { (result.bytes ≡ bytes.entry) × (result.at ≡ at) }
    {
        Reader { bytes, at }
    }

    // What stands at the reader's position.
    pub fn field(self) -> Found
        ensures { result ≡ found_in (front_of (drop self.entry.at self.entry.bytes.now)) }
    {
        fields::field_at(self.bytes, self.at)
    }

    // The content of the field at the reader's position, as that very part of the caller's bytes; an empty part where no whole field stands.
    pub fn content(self) -> &'a [u8]
        ensures result_value { result.now ≡ content_in (front_of (drop self.entry.at self.entry.bytes.now)) }
        ensures ref_ptr_value { T (is_whole (front_of (drop self.entry.at self.entry.bytes.now))) → (result.ref_ptr.0 ≡ self.entry.bytes.ref_ptr.0) × (result.ref_ptr.1 ≡ self.entry.at + 3 + self.entry.bytes.ref_ptr.1) }
    {
        fields::content_at(self.bytes, self.at)
    }

    // The reader past the field at its position; where no whole field stands it does not move.
    pub fn past(self) -> Reader<'a>
        ensures { (result.bytes ≡ self.entry.bytes) × (result.at ≡ next_in self.entry.at (front_of (drop self.entry.at self.entry.bytes.now))) }
    {
        Reader {
            at: fields::next_at(self.bytes, self.at),
            ..self
        }
    }

    // Where a reader stands.
    pub fn position(self) -> usize
        ensures { result ≡ self.entry.at }
    {
        self.at
    }
}

// The same, for a caller that keeps the sheet and the position by itself: such a caller is covered.

// What a reader finds at a position.
pub fn field_of(bytes: &[u8], at: usize) -> Found
    ensures { result ≡ found_in (front_of (drop at bytes.now)) }
{
    Reader::start_at(bytes, at).field()
}

// The content that a reader shows at a position.
pub fn content_of(bytes: &[u8], at: usize) -> &[u8]
    ensures result_value { result.now ≡ content_in (front_of (drop at bytes.now)) }
    ensures ref_ptr_value { T (is_whole (front_of (drop at bytes.now))) → (result.ref_ptr.0 ≡ bytes.entry.ref_ptr.0) × (result.ref_ptr.1 ≡ at + 3 + bytes.entry.ref_ptr.1) }
{
    Reader::start_at(bytes, at).content()
}

// Where a reader stands past the field at a position.
pub fn next_of(bytes: &[u8], at: usize) -> usize
    ensures { result ≡ next_in at (front_of (drop at bytes.now)) }
{
    Reader::start_at(bytes, at).past().position()
}

// The tag of the field that a reader finds at a position; 0 where no whole field stands.
pub fn tag_of(bytes: &[u8], at: usize) -> u8
    ensures { result ≡ tag_in (front_of (drop at bytes.now)) }
{
    match field_of(bytes, at) {
        Found::Whole(tag, _) => tag,
        Found::Cut | Found::End => 0,
    }
}
