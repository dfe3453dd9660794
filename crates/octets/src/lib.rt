#![tactic(auto)]
// Numbers, names and runs of bytes in a slice. Nothing here knows the protocol.
pub mod name;
pub mod number;
pub mod run;
pub mod sum;

ghost use Rattle.std.specs.Prelude.{◌≡◌, ◌<◌, length, slice_index};

// A byte as a number of the machine's width.
pub fn wide(x: u8) -> usize
    ensures { (result ≡ x) × (result < 256) }
{
    usize::from(x)
}

// The byte at a place, as a wider number.
pub fn byte(s: &[u8], i: usize) -> usize
    requires { i < length s.now }
    ensures { (result ≡ slice_index s.now i) × (result < 256) }
{
    wide(s[i])
}

// The byte at a place, and 0 past the end.
pub fn byte_or_zero(s: &[u8], i: usize) -> u8
    ensures { result ≡ slice_index s.now i }
{
    s.get(i).copied().unwrap_or(0)
}
