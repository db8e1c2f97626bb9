// The fields of rule files and sheets: a tag, a length of two bytes, high byte first, and that many content bytes.

#![tactic(auto)]

ghost use Rattle.std.specs.Prelude.{◌≡◌, ◌+◌, ◌≤◌, T, length, take, drop};
ghost use Rattle.meaning.specs.Fields.{front_of};
ghost use Rattle.fields.specs.Found.{found_in, is_whole, content_in, next_in, nth_in};

// The bytes of a field before its content: the tag and the length.
pub const HEADER: usize = 3;

// What stands at a position. An enum of three, one for each case of the format's own definition (`Front`): as `Result<Option<..>, Cut>` a walk that must
// tell all three would match `Ok(Some(..))`, `Ok(None)` and `Err(Cut)`, and none hands a cut on by `?`, since each answers it by a number of its own.
#[derive(Clone, Copy)]
pub enum Found {
    // No byte is left.
    End,
    // Under 3 bytes are left, or the length passes the end.
    Cut,
    // A field: its tag, and how long its content is, which starts 3 bytes on.
    Whole(u8, usize),
}

// The fields of one kind: so many, one after the other from a position of some bytes on.
#[derive(Clone, Copy)]
pub struct Section<'a> {
    pub bytes: &'a [u8],
    pub from: usize,
    pub count: u8,
}

// The field that starts at a position.
pub fn field_at(s: &[u8], at: usize) -> Found
    ensures { result ≡ found_in (front_of (drop at s.now)) }
{
    if s.len() <= at {
        return Found::End;
    }
    let left = s.len() - at;
    if left < HEADER {
        return Found::Cut;
    }
    let len = usize::from(s[at + 1]) * 256 + usize::from(s[at + 2]);
    if len <= left - HEADER {
        Found::Whole(s[at], len)
    } else {
        Found::Cut
    }
}

// The content of a field at a position, as that very part of the slice.
pub fn content(s: &[u8], at: usize, len: usize) -> &[u8]
    requires { at + 3 + len ≤ length s.now }
    ensures { (result.now ≡ take len (drop (at + 3) s.now)) × (result.ref_ptr.0 ≡ s.entry.ref_ptr.0) × (result.ref_ptr.1 ≡ at + 3 + s.entry.ref_ptr.1) }
{
    let from = at + HEADER;
    let to = from + len;
    &s[from..to]
}

// The content of the field at a position, as that very part of the slice; an empty part where no whole field stands. No Option here, at `next_at` and at
// `nth_content`: their clauses promise these answers where no whole field stands, and callers that know of one would match an Option for nothing.
pub fn content_at(s: &[u8], at: usize) -> &[u8]
    ensures result_value { result.now ≡ content_in (front_of (drop at s.now)) }
    ensures ref_ptr_value { T (is_whole (front_of (drop at s.now))) → (result.ref_ptr.0 ≡ s.entry.ref_ptr.0) × (result.ref_ptr.1 ≡ at + 3 + s.entry.ref_ptr.1) }
{
    let Found::Whole(_, len) = field_at(s, at) else {
        return &s[..0];
    };
    content(s, at, len)
}

// Where the field after the one at a position starts; the position itself where no whole field stands.
pub fn next_at(s: &[u8], at: usize) -> usize
    ensures { result ≡ next_in at (front_of (drop at s.now)) }
{
    let Found::Whole(_, len) = field_at(s, at) else {
        return at;
    };
    at + HEADER + len
}

// The content of field k, counted from the field at a position; an empty part where there are not so many.
pub fn nth_content(s: &[u8], from: usize, k: usize) -> &[u8]
    ensures { result.now ≡ nth_in k (drop from s.now) }
{
    let mut at = from;
    for _ in 0..k {
        at = next_at(s, at);
    }
    content_at(s, at)
}
