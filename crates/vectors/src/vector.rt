// A vector block: what one authentication of a card takes.
ghost use Rattle.std.specs.Prelude.{◌≡◌, ◌+◌, ◌≤◌, length, take, drop};
ghost use Rattle.octets.specs.Run.{Mask};
ghost use Rattle.vectors.specs.VectorBlock.{vector_of, sound_limits, sound_rest, sound_vector, card_of, rand_autn_of, xres_of, confidentiality_of, integrity_of};

use blocks::BLOCK;
use octets::{run, sum};

// The numbers of a vector block: kind, used, and the lengths of XRES and of the private identity. Its name, its challenge and its keys stay in the
// file.
#[derive(Clone, Copy)]
pub struct Vector {
    pub kind: u8,
    pub used: u8,
    pub xres: u8,
    pub private: u8,
}

impl Vector {
    // Where each field stands.
    pub const KIND_AT: usize = 0;

    pub const USED_AT: usize = 1;

    pub const XRES_LENGTH_AT: usize = 2;

    pub const PRIVATE_LENGTH_AT: usize = 3;

    pub const PRIVATE_AT: usize = 4;

    pub const RAND_AUTN_AT: usize = 132;

    pub const XRES_AT: usize = 164;

    pub const CONFIDENTIALITY_KEY_AT: usize = 180;

    pub const INTEGRITY_KEY_AT: usize = 196;

    pub const REST_AT: usize = 212;

    pub const CHECK_AT: usize = 508;

    // The bytes of RAND and AUTN, and of each key.
    pub const RAND_AUTN: usize = 32;

    pub const KEY: usize = 16;

    // What each may hold.
    pub const KIND: u8 = 3;

    pub const MOST_USED: u8 = 1;

    pub const LEAST_XRES: u8 = 4;

    pub const MOST_XRES: u8 = 16;

    pub const LEAST_PRIVATE: u8 = 1;

    pub const MOST_PRIVATE: u8 = 128;

    // The numbers of a block.
    pub fn read(b: &[u8; BLOCK]) -> Vector
        ensures { result ≡ vector_of b.now }
    {
        Vector {
            kind: b[Vector::KIND_AT],
            used: b[Vector::USED_AT],
            xres: b[Vector::XRES_LENGTH_AT],
            private: b[Vector::PRIVATE_LENGTH_AT],
        }
    }

    // Each number within its limits.
    fn limits(self) -> bool
        ensures { result ≡ sound_limits self }
    {
        (self.kind == Vector::KIND)
            & (self.used <= Vector::MOST_USED)
            & (Vector::LEAST_XRES <= self.xres)
            & (self.xres <= Vector::MOST_XRES)
            & (Vector::LEAST_PRIVATE <= self.private)
            & (self.private <= Vector::MOST_PRIVATE)
    }
}

// "Bytes not named are zero, and so are unused places in a field", as of a record.
fn rest(b: &[u8; BLOCK], v: Vector, mask: &[u8]) -> bool
    requires { (v.private ≤ 128) × (v.xres ≤ 16) × Mask mask.now }
    ensures { result ≡ sound_rest b.now v }
{
    run::set_past(b, Vector::PRIVATE_AT, 16, v.private as usize, mask)
        | run::set_past(b, Vector::XRES_AT, 2, v.xres as usize, mask)
        | run::set_bits(b, Vector::REST_AT, 37)
        == 0
}

// Whether a block is a sound vector. Its numbers come first: what is zero goes by them.
pub fn sound(b: &[u8; BLOCK], mask: &[u8]) -> bool
    requires { Mask mask.now }
    ensures { result ≡ sound_vector b.now }
{
    let v = Vector::read(b);
    v.limits() && (sum::sum_words(b, 128) == 0) & rest(b, v, mask)
}

// The n bytes from a place on.
fn part(b: &[u8; BLOCK], at: usize, n: usize) -> &[u8]
    requires { at + n ≤ 512 }
    ensures { (result.now ≡ take n (drop at b.now)) × (length result.now ≡ n) }
{
    &b[at..at + n]
}

// The private identity that a vector is for.
pub fn private(b: &[u8; BLOCK]) -> &[u8]
    ensures { (result.now ≡ card_of b.now) × (length result.now ≤ 255) }
{
    part(
        b,
        Vector::PRIVATE_AT,
        octets::byte(b, Vector::PRIVATE_LENGTH_AT),
    )
}

// "They are sent as stored": RAND and AUTN, the true length of XRES, the two keys.
pub fn rand_autn(b: &[u8; BLOCK]) -> &[u8]
    ensures { (result.now ≡ rand_autn_of b.now) × (length result.now ≡ 32) }
{
    part(b, Vector::RAND_AUTN_AT, Vector::RAND_AUTN)
}

pub fn xres(b: &[u8; BLOCK]) -> &[u8]
    requires { (vector_of b.now).xres ≤ 16 }
    ensures { (result.now ≡ xres_of b.now) × (length result.now ≡ (vector_of b.now).xres) }
{
    part(b, Vector::XRES_AT, octets::byte(b, Vector::XRES_LENGTH_AT))
}

pub fn confidentiality_key(b: &[u8; BLOCK]) -> &[u8]
    ensures { (result.now ≡ confidentiality_of b.now) × (length result.now ≡ 16) }
{
    part(b, Vector::CONFIDENTIALITY_KEY_AT, Vector::KEY)
}

pub fn integrity_key(b: &[u8; BLOCK]) -> &[u8]
    ensures { (result.now ≡ integrity_of b.now) × (length result.now ≡ 16) }
{
    part(b, Vector::INTEGRITY_KEY_AT, Vector::KEY)
}
