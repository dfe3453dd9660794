#![tactic(auto)]
// 02 [1]: the vector file, without cleverness: its check, sentence by sentence, and the first unused vectors of a name.
ghost use Rattle.std.specs.Prelude.{◌≡◌, ◌+◌, ◌*◌, ◌≤◌, ◌<◌, length};
ghost use Rattle.vectors.specs.Chosen.{unused_at, unused_of, packed};
ghost use Rattle.vectors.specs.Sendable.{sent_also};
ghost use Rattle.vectors.specs.VectorBlock.{sound_limits, sound_rest, sound_vector};
ghost use Rattle.vectors.specs.VectorFile.{sound_piece, check_vectors, SoundVectors};
ghost use Rattle.plain_vectors.specs.Next.{with_next};

use blocks::{BLOCK, Checked, block};
use octets::run;
use plain_table::bytes;
use vectors::choice::Sent;
use vectors::vector::Vector;
use vectors::{choice, vector};

// "0 kind 3; 1 used (0 or 1); 2 XRES length (4 to 16); 3 length of private identity (1 to 128)"
fn limits(v: Vector) -> bool
    ensures { result ≡ sound_limits v }
{
    (v.kind == 3)
        & (v.used <= 1)
        & (4 <= v.xres)
        & (v.xres <= 16)
        & (1 <= v.private)
        & (v.private <= 128)
}

// "4-131 that name; .. 164-179 XRES; .. 196-211 .. integrity key; the rest zero"
fn rest(b: &[u8; 512], v: Vector) -> bool
    ensures { result ≡ sound_rest b.now v }
{
    run::zero_between(b, 4 + (v.private as usize), 132)
        & run::zero_between(b, 164 + (v.xres as usize), 180)
        & run::zero_between(b, 212, 508)
}

// "with the table's check"
fn sound(b: &[u8; 512]) -> bool
    ensures { result ≡ sound_vector b.now }
{
    let v = Vector::read(b);
    (bytes::sum(b) == 0) & limits(v) & rest(b, v)
}

// "0 to 4,096 blocks of 512 bytes": piece k is one of them, whole and sound.
fn piece_sound(v: &[u8], k: usize) -> bool
    requires { k ≤ 4096 }
    ensures { result ≡ sound_piece v.now k }
{
    k < 4096 && BLOCK * k + BLOCK <= v.len() && sound(block(v, k))
}

// The number of blocks, or the first piece that is bad; the last piece may be cut.
pub fn check(v: &[u8]) -> Checked
    ensures { result ≡ check_vectors v.now }
{
    let pieces = v.len().div_ceil(BLOCK);
    for k in 0..pieces {
        if !piece_sound(v, k) {
            return Err(k as u32);
        }
    }
    Ok(pieces as u32)
}

// Whether vector k is unused, and this name's.
fn unused(v: &[u8], name: &[u8], k: usize) -> bool
    requires { 512 * k + 512 ≤ length v.now }
    ensures { result ≡ unused_at v.now name.now k }
{
    let b = block(v, k);
    (b[Vector::USED_AT] == 0) & bytes::same(vector::private(b), name)
}

// One vector more.
fn also(s: Sent, k: u32) -> Sent
    requires { s.count < 16 }
    ensures { result ≡ sent_also s k }
{
    let at = s.count;
    let mut blocks = s.blocks;
    blocks[at] = k;
    Sent {
        blocks,
        count: at + 1,
    }
}

// Vector k joins those that are sent, if there are not enough and it is one of them.
fn with_next(v: &[u8], name: &[u8], most: usize, s: Sent, k: usize) -> Sent
    requires { (512 * k + 512 ≤ length v.now) × (k ≤ 4096) × (most ≤ 16) }
    ensures { result ≡ with_next v.now name.now most s k }
{
    if s.count < most && unused(v, name, k) {
        also(s, k as u32)
    } else {
        s
    }
}

// "that name's first unused vectors in file order, as many as asked or as remain, at most 16"
pub fn first_unused(v: &[u8], name: &[u8], most: usize) -> Sent
    requires { SoundVectors v.now × (most ≤ 16) }
    ensures { result ≡ packed (unused_of v.now name.now most) }
{
    let mut sent = choice::none();
    for k in 0..v.len() / BLOCK {
        sent = with_next(v, name, most, sent, k);
    }
    sent
}
