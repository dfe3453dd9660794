// The vector file, block by block.
ghost use Rattle.std.specs.Prelude.{◌≡◌, ◌+◌, ◌*◌, ◌≤◌, length};
ghost use Rattle.octets.specs.Run.{Mask};
ghost use Rattle.vectors.specs.VectorFile.{pieces_of, sound_piece, check_vectors};

use crate::vector;
use blocks::Checked;
use octets::run;

// "0 to 4,096 blocks"
const MOST: usize = 4096;

// How many pieces of 512 bytes there are, the last one cut or whole.
fn pieces(v: &[u8]) -> usize
    ensures { result ≡ pieces_of v.now }
{
    v.len().div_ceil(blocks::BLOCK)
}

// Whether piece k is one of 4,096, whole, and a sound vector.
fn piece_sound(v: &[u8], k: usize, mask: &[u8]) -> bool
    requires { (k ≤ 4096) × Mask mask.now }
    ensures { result ≡ sound_piece v.now k }
{
    k < MOST
        && blocks::BLOCK * k + blocks::BLOCK <= v.len()
        && vector::sound(blocks::block(v, k), mask)
}

// The number of blocks, or the first piece that is bad.
pub fn check(v: &[u8]) -> Checked
    ensures { result ≡ check_vectors v.now }
{
    let n = pieces(v);
    let mask = run::mask();
    for k in 0..n {
        if !piece_sound(v, k, &mask) {
            return Err(k as u32);
        }
    }
    Ok(n as u32)
}
