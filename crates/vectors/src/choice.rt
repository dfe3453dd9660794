// "that name's first unused vectors in file order, as many as asked or as remain, at most 16"
ghost use Rattle.std.specs.Prelude.{◌≡◌, ◌+◌, ◌*◌, ◌≤◌, ◌<◌, length};
ghost use Rattle.vectors.specs.Chosen.{unused_here, unused_at, unused_of, none_sent, packed};
ghost use Rattle.vectors.specs.Sendable.{sent_also};
ghost use Rattle.vectors.specs.VectorFile.{SoundVectors};

use crate::vector;
use crate::vector::Vector;
use octets::name;

// At most so many vectors are sent in one answer.
pub const MOST: usize = 16;

// The numbers of the blocks that are sent: the first so many of the array.
#[derive(Clone, Copy)]
pub struct Sent {
    pub blocks: [u32; MOST],
    pub count: usize,
}

impl Sent {
    // One block more.
    fn push(&mut self, k: u32)
        requires { self.old.count < 16 }
        ensures { self.new ≡ sent_also self.old k }
    {
        self.blocks[self.count] = k;
        self.count += 1;
    }
}

// No block.
pub fn none() -> Sent
    ensures { result ≡ none_sent }
{
    Sent {
        blocks: [0; MOST],
        count: 0,
    }
}

// Whether a vector is unused and for this private identity.
fn unused(b: &[u8; blocks::BLOCK], name: &[u8]) -> bool
    ensures { result ≡ unused_here b.now name.now }
{
    b[Vector::USED_AT] == 0 && name::same(vector::private(b), name)
}

// The same of block k.
fn unused_at(v: &[u8], k: usize, name: &[u8]) -> bool
    requires { 512 * k + 512 ≤ length v.now }
    ensures { result ≡ unused_at v.now name.now k }
{
    unused(blocks::block(v, k), name)
}

// The first unused vectors of a private identity, at most so many. The array is touched only where one is found.
pub fn first_unused(v: &[u8], name: &[u8], most: usize) -> Sent
    requires { SoundVectors v.now × (most ≤ 16) }
    ensures { result ≡ packed (unused_of v.now name.now most) }
{
    let mut sent = none();
    for k in 0..v.len() / blocks::BLOCK {
        if most <= sent.count {
            break;
        }
        if unused_at(v, k, name) {
            sent.push(k as u32);
        }
    }
    sent
}
