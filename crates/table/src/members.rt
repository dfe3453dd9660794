// The agreement of sets, in one pass: of each set the first block is remembered, and a later one is held against it.
ghost use Rattle.std.specs.Prelude.{◌≡◌, ◌+◌, ◌*◌, ◌%◌, ◌<◌, ◌≤◌, length, slice_index};
ghost use Rattle.table.specs.Hash.{hash_of};
ghost use Rattle.blocks.specs.Blocks.{block_of};
ghost use Rattle.table.specs.Check.{agrees_at};
ghost use Rattle.table.specs.Leading.{leading};
ghost use Rattle.table.specs.Remembered.{tag_of, stops_at, Remembers, SlotFound, Agreed};

use crate::hash;
use blocks::block;
use record::sets;

// More slots than a table has records: some stay empty, so that a search ends.
pub const SLOTS: usize = 4608;

// A slot is 0, or a block's number with three bits of its hash above it, so that few blocks of other sets are looked at.
// A number and no Option: that takes two words for one, and all slots are cleared at every check.
pub const TAG: usize = 8192;

pub fn tag(hash: usize) -> usize
    ensures { (result ≡ tag_of hash) × (result < 8) }
{
    hash / SLOTS % 8
}

// The slot at a place.
pub fn slot(slots: &[u16], at: usize) -> usize
    requires { at < length slots.now }
    ensures { result ≡ slice_index slots.now at }
{
    slots[at] as usize
}

// Whether block k's set is looked for no further than a slot.
fn stops(t: &[u8], hash: usize, k: usize, word: usize) -> bool
    requires { (word % 8192 < k) × (512 * k + 512 ≤ length t.now) }
    ensures { result ≡ stops_at t.now hash k word }
{
    word == 0 || (word / TAG == tag(hash) && sets::same_set(block(t, word % TAG), block(t, k)))
}

// The place of the first slot of a hash at which block k's set is looked for no further.
fn find(t: &[u8], slots: &[u16; SLOTS], hash: usize, k: usize) -> usize
    requires { Remembers t.now slots.now k × (k ≤ 4096) × (512 * k + 512 ≤ length t.now) }
    ensures { SlotFound t.now slots.now hash k result × (result < 4608) }
{
    let home = hash % SLOTS;
    // By index: the places go round, and more slots than records say that one of them stops it.
    let mut i = 0;
    loop {
        let at = (home + i) % SLOTS;
        if stops(t, hash, k, slot(slots, at)) {
            return at;
        }
        i += 1;
    }
}

// Whether block k agrees with the one in the slot where its set was looked for, if there is one; if not, block k is remembered there.
fn held(t: &[u8], slots: &mut [u16; SLOTS], hash: usize, k: usize, at: usize) -> bool
    requires { (1 ≤ k) × (k ≤ 4096) × (at < 4608) × (512 * k + 512 ≤ length t.now) × Remembers t.now slots.old k × Agreed t.now k
        × SlotFound t.now slots.old hash k at × (hash ≡ hash_of (block_of t.now k)) }
    ensures { (result ≡ agrees_at t.now k) × Remembers t.now slots.new (k + 1) }
{
    let word = slot(slots, at);
    if word == 0 {
        slots[at] = (tag(hash) * TAG + k) as u16;
        return true;
    }
    sets::agree(block(t, word % TAG), block(t, k))
}

// Whether block k agrees with every record of its set before it, those being remembered.
fn agrees_by(t: &[u8], slots: &mut [u16; SLOTS], k: usize) -> bool
    requires { (1 ≤ k) × (k ≤ 4096) × (512 * k + 512 ≤ length t.now) × Remembers t.now slots.old k × Agreed t.now k }
    ensures { (result ≡ agrees_at t.now k) × Remembers t.now slots.new (k + 1) }
{
    let b = block(t, k);
    if sets::set(b) == 0 {
        return true;
    }
    let hash = hash::hash(b);
    let at = find(t, slots, hash, k);
    held(t, slots, hash, k, at)
}

// How many of the first n records agree with those before them, up to the first that does not.
pub fn agreeing(t: &[u8], n: usize) -> usize
    requires { (n ≤ 4096) × (512 * n + 512 ≤ length t.now) }
    ensures { (result ≡ leading (agrees_at t.now) n 1) × (result ≤ n) }
{
    let mut slots = [0u16; SLOTS];
    for m in 0..n {
        if !agrees_by(t, &mut slots, m + 1) {
            return m;
        }
    }
    n
}
