// Runs of bytes: zeros that are looked for, bytes that are written.
ghost use Rattle.std.specs.Prelude.{◌≡◌, ◌+◌, ◌*◌, ◌≤◌, length, replicate, ◌==◌};
ghost use Rattle.octets.specs.Run.{zero_between, Mask, put_name, Wrote};

use crate::number;

// Where the ones of the mask begin: no field that is asked under it is longer.
const MIDDLE: usize = 128;

// Whether the bytes from one place up to another are all zero, as they are where there are none. No early exit: the loop becomes vectors.
pub fn zero_between(s: &[u8], from: usize, to: usize) -> bool
    requires { to ≤ length s.now }
    ensures { result ≡ zero_between s.now from to }
{
    let run = &s[from.min(to)..to];
    let mut clear = true;
    for b in run {
        clear &= *b == 0;
    }
    clear
}

// The bits that are set in any of n eights of bytes from a place on: none, where they are all zero. Several of these are one test.
// By place, as in `set_past`, whose loop reads two slices.
pub fn set_bits(s: &[u8], at: usize, n: usize) -> usize
    requires { at + 8 * n ≤ length s.now }
    ensures { (result == 0) ≡ zero_between s.now at (at + 8 * n) }
{
    let mut bits: usize = 0;
    for i in 0..n {
        bits |= number::le64(s, at + 8 * i);
    }
    bits
}

// Zeros, and as many bytes whose bits are all set. A part of it that begins n bytes before the middle leaves out the first n bytes of a field.
pub fn mask() -> [u8; 256]
    ensures { Mask result }
{
    let mut m = [255; 256];
    clear(&mut m, MIDDLE);
    m
}

// The bits that are set in a field of n eights past its first bytes: none, where all past them is zero.
pub fn set_past(s: &[u8], at: usize, n: usize, first: usize, mask: &[u8]) -> usize
    requires { (at + 8 * n ≤ length s.now) × (n ≤ 16) × (first ≤ 128) × Mask mask.now }
    ensures { (result == 0) ≡ zero_between s.now (at + first) (at + 8 * n) }
{
    let from = MIDDLE - first;
    let mut bits: usize = 0;
    for i in 0..n {
        bits |= number::le64(s, at + 8 * i) & number::le64(mask, from + 8 * i);
    }
    bits
}

// Puts a name at a place. By index, as in `copy`: the library's copy of so many bytes is a call of memmove, which no caller had to bring.
fn put_bytes(s: &mut [u8], at: usize, name: &[u8])
    requires { at + length name.now ≤ length s.old }
    ensures { s.new ≡ put_name s.old at name.now (length name.now) }
{
    for i in 0..name.len() {
        s[at + i] = name[i];
    }
}

// Puts a name into a field of n bytes, with zeros after it.
pub fn put_name(s: &mut [u8], at: usize, n: usize, name: &[u8])
    requires { (at + n ≤ length s.old) × (length name.now ≤ n) }
    ensures { s.new ≡ put_name s.old at name.now n }
{
    put_bytes(s, at, name);
    s[at + name.len()..at + n].fill(0);
}

// Copies all of src to the front of out.
pub fn copy(out: &mut [u8], src: &[u8])
    requires { length src.now ≤ length out.old }
    ensures { Wrote src.now out.old out.new (length src.now) }
{
    for i in 0..src.len() {
        out[i] = src[i];
    }
}

// Writes n zero bytes to the front of out.
pub fn clear(out: &mut [u8], n: usize)
    requires { n ≤ length out.old }
    ensures { Wrote (replicate n 0) out.old out.new n }
{
    out[..n].fill(0);
}
