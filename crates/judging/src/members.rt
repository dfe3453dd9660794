// The agreement of sets, as the table's check finds it: of each set the first block is remembered, and a later one is held against it. A block that is
// remembered is read again out of the list.
ghost use Rattle.std.specs.Prelude.{◌≡◌, true, ◌+◌, ◌%◌, ◌≤◌, ◌<◌, length, get_or};
ghost use Rattle.record.specs.Fields.{count_of};
ghost use Rattle.table.specs.Check.{agrees_at};
ghost use Rattle.table.specs.Leading.{leading};
ghost use Rattle.table.specs.Remembered.{Remembers, Agreed};
ghost use Rattle.importing.specs.Said.{said_at, table_said};
ghost use Rattle.judging.specs.Fit.{Fit};
ghost use Rattle.saying.specs.Noted.{Noted};
ghost use Rattle.judging.specs.Members.{stops_by, SlotRead, held_by, slots_after, Reached, FoundSo};

use record::sets;
use table::{hash, members};

// Whether a block's set is looked for no further than a slot. The slot's block is read if its hash may be the same.
fn stops(
    a: &mut [u8; 512],
    b: &[u8; 512],
    list: &[u8],
    header: &[u8; 512],
    places: &[u32; 128],
    hash: usize,
    word: usize,
) -> bool
    requires { (121 ≤ length list.now)
        × Reached list.now places.now word }
    ensures { (result ≡ stops_by list.now header.now hash b.now word)
        × SlotRead list.now header.now word result a.new }
{
    if word == 0 {
        return true;
    }
    if word / members::TAG == members::tag(hash) {
        saying::again(a, list, places, word % members::TAG, header);
        return sets::same_set(a, b);
    }
    false
}

// The place of the first slot of a hash at which record k's set is looked for no further; the slot's block is left in `a`.
fn find(
    a: &mut [u8; 512],
    b: &[u8; 512],
    list: &[u8],
    header: &[u8; 512],
    places: &[u32; 128],
    slots: &[u16],
    hash: usize,
    k: usize,
) -> usize
    requires { Fit header.now × (121 ≤ length list.now) × (1 ≤ k) × (k ≤ count_of header.now)
        × Noted list.now places.now k × Remembers (table_said list.now header.now) slots.now k × (b.now ≡ said_at list.now header.now k) }
    ensures { FoundSo list.now header.now slots.now k a.new hash result }
{
    let home = hash % members::SLOTS;
    // No range bounds it: some slot is empty, and the search ends there at the latest.
    let mut i = 0;
    loop {
        let at = (home + i) % members::SLOTS;
        if stops(a, b, list, header, places, hash, members::slot(slots, at)) {
            return at;
        }
        i += 1;
    }
}

// Whether a block agrees with the one of the slot where its set was looked for, if there is one; if not, it is remembered there as record k.
fn held(a: &[u8; 512], b: &[u8; 512], slots: &mut [u16], hash: usize, at: usize, k: usize) -> bool
    requires { (length slots.old ≡ 4608) × (at < 4608) × (k ≤ 4096) }
    ensures { (result ≡ held_by a.now b.now (get_or slots.old at 0))
        × (slots.new ≡ slots_after slots.old hash at k) }
{
    if members::slot(slots, at) == 0 {
        slots[at] = (members::tag(hash) * members::TAG + k) as u16;
        return true;
    }
    sets::agree(a, b)
}

// Whether record k's block agrees with every record of its set before it, those being remembered.
fn agrees_by(
    a: &mut [u8; 512],
    b: &[u8; 512],
    list: &[u8],
    header: &[u8; 512],
    places: &[u32; 128],
    slots: &mut [u16],
    k: usize,
) -> bool
    requires { Fit header.now × (121 ≤ length list.now) × (1 ≤ k) × (k ≤ count_of header.now)
        × Noted list.now places.now k × Remembers (table_said list.now header.now) slots.old k
        × Agreed (table_said list.now header.now) k × (b.now ≡ said_at list.now header.now k) }
    ensures { (result ≡ agrees_at (table_said list.now header.now) k)
        × Remembers (table_said list.now header.now) slots.new (k + 1) }
{
    if sets::set(b) == 0 {
        return true;
    }
    let hash = hash::hash(b);
    let at = find(a, b, list, header, places, slots, hash, k);
    held(a, b, slots, hash, at, k)
}

// How many of the first n records agree with those before them, up to the first that does not.
pub fn agreeing(
    list: &[u8],
    header: &[u8; 512],
    places: &[u32; 128],
    n: usize,
    a: &mut [u8; 512],
    b: &mut [u8; 512],
) -> usize
    requires { Fit header.now × (121 ≤ length list.now) × (n ≤ count_of header.now) × Noted list.now places.now n }
    ensures { (result ≡ leading (agrees_at (table_said list.now header.now)) n 1) × (result ≤ n) }
{
    let mut slots = [0u16; members::SLOTS];
    let mut at = saying::FIRST;
    for m in 0..n {
        at += saying::read(b, list, at, m, header);
        if !agrees_by(a, b, list, header, places, &mut slots, m + 1) {
            return m;
        }
    }
    n
}
