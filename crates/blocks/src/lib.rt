#![tactic(auto)]
// A file of blocks of 512 bytes: a block lent, a block given a new check word.
ghost use Rattle.std.specs.Prelude.{◌≡◌, ◌+◌, ◌*◌, ◌≤◌, length};
ghost use Rattle.blocks.specs.Blocks.{block_of};
ghost use Rattle.blocks.specs.Sealed.{sealed};

use octets::{number, sum};

// "Blocks of 512 bytes"
pub const BLOCK: usize = 512;

// How many blocks are sound, or the number of the first bad one.
pub type Checked = Result<u32, u32>;

// Block k of a file.
pub fn block(t: &[u8], k: usize) -> &[u8; BLOCK]
    requires { 512 * k + 512 ≤ length t.now }
    ensures { result.now ≡ block_of t.now k }
{
    t[BLOCK * k..].first_chunk().unwrap()
}

// Where a block's check word stands.
const CHECK_AT: usize = 508;

// Gives a block a new check word: the old one, less what the block sums to.
pub fn seal(b: &mut [u8; BLOCK])
    ensures { b.new ≡ sealed b.old }
{
    let w = number::be32(b, CHECK_AT).wrapping_sub(sum::sum_words(b, 128));
    number::put_be32(b, CHECK_AT, w);
}
