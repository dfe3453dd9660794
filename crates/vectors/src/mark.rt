// "are marked used": of a vector only this byte and its check word change.
ghost use Rattle.std.specs.Prelude.{◌≡◌, ◌+◌, ◌*◌, ◌≤◌, ◌%◌, length};
ghost use Rattle.blocks.specs.Changed.{changed_in};
ghost use Rattle.vectors.specs.Chosen.{sent_of};
ghost use Rattle.vectors.specs.Sendable.{Sendable};
ghost use Rattle.vectors.specs.Marked.{marked_used, spent};

use crate::choice::Sent;
use crate::vector::Vector;

fn mark(b: &mut [u8; blocks::BLOCK])
    ensures { b.new ≡ marked_used b.old }
{
    b[Vector::USED_AT] = 1;
    blocks::seal(b);
}

// Block k of a file.
fn mark_at(v: &mut [u8], k: usize)
    requires { 512 * k + 512 ≤ length v.old }
    ensures { v.new ≡ changed_in v.old k marked_used }
{
    let (_, rest) = v.split_at_mut(blocks::BLOCK * k);
    mark(rest.first_chunk_mut().unwrap());
}

// Every block that is sent.
pub fn spend(v: &mut [u8], sent: Sent)
    requires { Sendable v.old sent × (length v.old % 512 ≡ 0) }
    ensures { v.new ≡ spent v.old (sent_of sent) }
{
    for k in &sent.blocks[..sent.count] {
        mark_at(v, *k as usize);
    }
}
