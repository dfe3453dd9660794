#![tactic(auto)]
// The check of a table, without cleverness: every sentence of "The table" tested of every block, from block 0 on.
pub mod bytes;
mod header;
pub mod subscriber;

ghost use Rattle.std.specs.Prelude.{◌≡◌, ◌+◌, ◌-◌, ◌*◌, ◌<◌, ◌≤◌, ◌&&◌, length, ◌==◌, nat_le};
ghost use Rattle.record.specs.HeaderBlock.{header_of, sound_header};
ghost use Rattle.blocks.specs.Blocks.{block_of};
ghost use Rattle.table.specs.Check.{rises_at, agrees_with, agrees_at, sound_at, check_table};

use blocks::{BLOCK, Checked, block};
use record::fields;
use record::header::Header;

// "Public identities rise strictly, bytewise, a prefix first; the later block is blamed."
fn rises(t: &[u8], k: usize) -> bool
    requires { 512 * k + 512 ≤ length t.now }
    ensures { result ≡ rises_at t.now k }
{
    k <= 1 || bytes::less(fields::public(block(t, k - 1)), fields::public(block(t, k)))
}

// 02 [6]: a table is "sound only if all records of a set agree .., the later block being blamed": block k with record i.
fn agrees_with(t: &[u8], k: usize, i: usize) -> bool
    requires { (512 * k + 512 ≤ length t.now) × (1 ≤ i) × (i < k) }
    ensures { result ≡ agrees_with t.now k (i - 1) }
{
    let a = block(t, i);
    let b = block(t, k);
    !subscriber::same_set(a, b) | subscriber::agree(a, b)
}

// The same with every record before it.
fn agrees(t: &[u8], k: usize) -> bool
    requires { (1 ≤ k) × (512 * k + 512 ≤ length t.now) }
    ensures { result ≡ agrees_at t.now k }
{
    (1..k).all(|i| agrees_with(t, k, i))
}

// Whether block k is a sound record in its place.
fn record_sound(t: &[u8], h: Header, file: usize, k: usize) -> bool
    requires { (1 ≤ k) × (k ≤ 4096) × (h.networks ≤ 8) × (512 * k + 512 ≤ length t.now) }
    ensures { result ≡ sound_at t.now h file k }
{
    subscriber::sound(block(t, k), k as u32, h, file) & rises(t, k) & agrees(t, k)
}

// "Length is exactly 512 x (count + 1); if not, block 0 is bad."
fn header_sound(t: &[u8]) -> bool
    ensures { result ≡ (nat_le 512 (length t.now) && sound_header (block_of t.now 0)
        && length t.now == 512 * ((header_of (block_of t.now 0)).count + 1)) }
{
    if t.len() < BLOCK {
        return false;
    }
    let b = block(t, 0);
    header::sound(b) & (t.len() == BLOCK * (Header::read(b).count as usize + 1))
}

// The record count, or the number of the first bad block.
pub fn check(t: &[u8], file: usize) -> Checked
    ensures { result ≡ check_table t.now file }
{
    if !header_sound(t) {
        return Err(0);
    }
    let h = Header::read(block(t, 0));
    let count = h.count as usize;
    for k in 1..=count {
        if !record_sound(t, h, file, k) {
            return Err(k as u32);
        }
    }
    Ok(h.count)
}
