// A number by which a record's set is looked for.
ghost use Rattle.std.specs.Prelude.{◌≡◌, ◌+◌, ◌*◌, ◌/◌, ◌<◌, ◌≤◌, length};
ghost use Rattle.table.specs.Hash.{term_at, sum_terms, mixed, mix_bytes, hash_name, hash_of};

use octets::number;
use record::{fields, sets};

const HALF: usize = 4294967296;

// Eight bytes of a name.
fn term(s: &[u8], at: usize, i: usize) -> usize
    requires { (at + 8 ≤ length s.now) × (i ≤ 255) }
    ensures { result ≡ term_at s.now at i }
{
    let first = number::be32(s, at) as usize;
    let second = number::be32(s, at + 4) as usize;
    first * ((second + i) % HALF)
}

// All whole eights of a name. They are added, so that none waits for the one before.
// By index: what an eight counts depends on its place, and the name's last eight, which `hash_name` adds, may begin within another.
fn terms(s: &[u8], h: usize) -> usize
    requires { length s.now ≤ 255 }
    ensures { result ≡ sum_terms s.now h (length s.now / 8) }
{
    let mut sum = h;
    for i in 0..s.len() / 8 {
        sum = sum.wrapping_add(term(s, 8 * i, i));
    }
    sum
}

fn mix(h: usize) -> usize
    ensures { (result ≡ mixed h) × (result ≤ 16263548782468940940) }
{
    h / HALF * 1640531527 + h % HALF * 2146121005
}

// A name of a few bytes.
fn mix_bytes(s: &[u8], h: usize) -> usize
    ensures { result ≡ mix_bytes s.now h (length s.now) }
{
    let mut sum = h;
    for b in s {
        sum = mix(sum) + *b as usize;
    }
    sum
}

fn hash_name(s: &[u8], h: usize) -> usize
    requires { length s.now ≤ 255 }
    ensures { result ≡ hash_name s.now h }
{
    if s.len() < 8 {
        return mix_bytes(s, h);
    }
    terms(s, h).wrapping_add(term(s, s.len() - 8, s.len()))
}

// Two records of one set have the same.
pub fn hash(b: &[u8; 512]) -> usize
    ensures { result ≡ hash_of b.now }
{
    mix(hash_name(fields::private(b), sets::set(b) as usize)) / 65536
}
