// Numbers in decimal put into a buffer from a position on, and how many digits they have.

#![tactic(auto)]

ghost use Rattle.std.specs.Prelude.{◌+◌, ◌≤◌, ◌≡◌, length};
ghost use Rattle.text.specs.Decimal.{decimal};
ghost use Rattle.byte_runs.specs.Pasted.{pasted};

// How many digits a number has.
pub fn decimal_length(n: usize) -> usize
    ensures { result ≡ length (decimal n) }
{
    n.checked_ilog10().unwrap_or(0) as usize + 1
}

// Puts the digits of a number from a position on, from the last to the first, and answers the position past them.
pub fn put_decimal(out: &mut [u8], at: usize, n: usize) -> usize
    requires { at + length (decimal n) ≤ length out.old }
    ensures { (out.new ≡ pasted out.old at (decimal n)) × (result ≡ at + length (decimal n)) }
{
    let end = at + decimal_length(n);
    let mut rest = n;
    for i in (at..end).rev() {
        out[i] = b'0' + (rest % 10) as u8;
        rest /= 10;
    }
    end
}
