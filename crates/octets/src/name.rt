// Names: bytes, compared exactly.
ghost use Rattle.std.specs.Prelude.{◌≡◌, ◌+◌, ◌-◌, ◌*◌, ◌%◌, ◌≤◌, min, true, false, length, MatchOption};
ghost use Rattle.octets.specs.All.{all_below};
ghost use Rattle.octets.specs.Name.{order_of, same, alike_at, alike_from, by_number};

use crate::number;
use std::cmp::Ordering;

// The smaller of two lengths.
pub fn smaller(m: usize, n: usize) -> usize
    ensures { result ≡ min m n }
{
    m.min(n)
}

// The order of two numbers that differ.
fn by_number(a: usize, b: usize) -> Ordering
    ensures { result ≡ by_number a b }
{
    if a < b {
        Ordering::Less
    } else {
        Ordering::Greater
    }
}

// The order of two names by the first eight bytes that differ, of the eights from one up to another, before which they are alike; none where none
// differ. It becomes part of what calls it, and so of the loop over a table that compares fields.
#[inline(always)]
fn by_eights(s: &[u8], t: &[u8], from: usize, to: usize) -> Option<Ordering>
    requires { (8 * to ≤ length s.now) × (8 * to ≤ length t.now) × (from ≤ to) × (true ≡ all_below (alike_at s.now t.now) (8 * from)) }
    ensures { MatchOption result (true ≡ all_below (alike_at s.now t.now) (8 * to))
        (λ order. (order ≡ order_of s.now t.now) × (false ≡ all_below (alike_at s.now t.now) (8 * to))) }
{
    for k in from..to {
        let a = number::be64(s, 8 * k);
        let b = number::be64(t, 8 * k);
        if a != b {
            return Some(by_number(a, b));
        }
    }
    None
}

// Whether 32 bytes from place i on are the same in both names, by words: what differs in any of them is one number.
fn alike_words(s: &[u8], t: &[u8], i: usize) -> bool
    requires { (i + 32 ≤ length s.now) × (i + 32 ≤ length t.now) }
    ensures { result ≡ all_below (alike_from s.now t.now i) 32 }
{
    let mut bits: u32 = 0;
    for j in 0..8 {
        bits |= number::le32(s, i + 4 * j) ^ number::le32(t, i + 4 * j);
    }
    bits == 0
}

// Passes over eights that are the same, from one on before which the names are alike, four at a time.
fn passed(s: &[u8], t: &[u8], from: usize, to: usize) -> usize
    requires { (8 * to ≤ length s.now) × (8 * to ≤ length t.now) × (from ≤ to) × (true ≡ all_below (alike_at s.now t.now) (8 * from)) }
    ensures { (result ≤ to) × (true ≡ all_below (alike_at s.now t.now) (8 * result)) }
{
    let mut k = from;
    while 4 <= to - k && alike_words(s, t, 8 * k) {
        k += 4;
    }
    k
}

// The order of two names that are alike but for the last eight bytes of the shorter.
fn by_last(s: &[u8], t: &[u8], n: usize) -> Ordering
    requires { (n ≡ min (length s.now) (length t.now)) × (8 ≤ n) × (true ≡ all_below (alike_at s.now t.now) (n - 8)) }
    ensures { result ≡ order_of s.now t.now }
{
    let a = number::be64(s, n - 8);
    let b = number::be64(t, n - 8);
    if a == b {
        s.len().cmp(&t.len())
    } else {
        by_number(a, b)
    }
}

// The order of two names. Where eight bytes differ, one comparison tells it: which of them is the first to differ cannot be foretold.
// The last eight may have been compared in part, and are alike there. By eights at other than short names, where `s.cmp(&t)` takes twice as long.
pub fn order_of(s: &[u8], t: &[u8]) -> Ordering
    ensures { result ≡ order_of s.now t.now }
{
    let n = s.len().min(t.len());
    if n < 8 {
        return s.cmp(&t);
    }
    match by_eights(s, t, 0, n / 8) {
        Some(order) => order,
        None => by_last(s, t, n),
    }
}

// The order of two fields of one length, of whole eights. Most differ in their first sixteen bytes; in others what is alike is passed over in larger steps.
pub fn field_order(s: &[u8], t: &[u8]) -> Ordering
    requires { (length s.now ≡ length t.now) × (length s.now % 8 ≡ 0) × (16 ≤ length s.now) }
    ensures { result ≡ order_of s.now t.now }
{
    let n = s.len() / 8;
    if let Some(order) = by_eights(s, t, 0, 2) {
        return order;
    }
    match by_eights(s, t, passed(s, t, 2, n), n) {
        Some(order) => order,
        None => Ordering::Equal,
    }
}

// Whether two names of one length are the same: a scan over many names leaves most of them at the first eight bytes, where `s == t` takes twice as long.
// The last eight may have been compared in part.
fn same_bytes(s: &[u8], t: &[u8]) -> bool
    requires { length s.now ≡ length t.now }
    ensures { result ≡ all_below (alike_at s.now t.now) (length s.now) }
{
    let n = s.len();
    if n < 8 {
        return s == t;
    }
    if number::be64(s, 0) != number::be64(t, 0) {
        return false;
    }
    match by_eights(s, t, passed(s, t, 1, n / 8), n / 8) {
        Some(_) => false,
        None => number::be64(s, n - 8) == number::be64(t, n - 8),
    }
}

// Whether two names are the same.
pub fn same(s: &[u8], t: &[u8]) -> bool
    ensures { result ≡ same s.now t.now }
{
    s.len() == t.len() && same_bytes(s, t)
}
