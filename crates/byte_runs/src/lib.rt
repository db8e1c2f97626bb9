// Bytes: tests over slices, slices copied, bytes put into a buffer.

#![tactic(auto)]

ghost use Rattle.std.specs.Prelude.{◌+◌, ◌≤◌, ◌<◌, ◌≡◌, [], ◌∷◌, eqb, ltb, length};
ghost use Rattle.meaning.specs.Lists.{any_of, all_of};
ghost use Rattle.meaning.specs.Calls.{written};
ghost use Rattle.byte_runs.specs.Pasted.{pasted};

// Whether a byte is among those of a slice.
pub fn contains(s: &[u8], b: u8) -> bool
    ensures { result ≡ any_of (λ x. eqb x b) s.now }
{
    s.contains(&b)
}

// Whether each byte of a slice is below m.
pub fn all_below(s: &[u8], m: usize) -> bool
    ensures { result ≡ all_of (λ x. ltb x m) s.now }
{
    s.iter().all(|&x| usize::from(x) < m)
}

// Copies words to the front of a buffer. A loop and not `copy_from_slice`, which becomes a call of memmove: the static library calls memcpy and memset alone.
pub fn copy_words(to: &mut [u16], from: &[u16])
    requires { length from.now ≤ length to.old }
    ensures { to.new ≡ written from.now to.old }
{
    for (i, word) in from.iter().enumerate() {
        to[i] = *word;
    }
}

// Copies bytes into a buffer from a position on, and answers the position past them.
pub fn put_bytes(out: &mut [u8], at: usize, bytes: &[u8]) -> usize
    requires { at + length bytes.now ≤ length out.old }
    ensures { (out.new ≡ pasted out.old at bytes.now) × (result ≡ at + length bytes.now) }
{
    let end = at + bytes.len();
    out[at..end].copy_from_slice(bytes);
    end
}

// The same for one byte.
pub fn put_byte(out: &mut [u8], at: usize, b: u8) -> usize
    requires { at < length out.old }
    ensures { (out.new ≡ pasted out.old at (b ∷ [])) × (result ≡ at + 1) }
{
    out[at] = b;
    at + 1
}
