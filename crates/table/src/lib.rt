#![tactic(auto)]
// The check of a whole table, block by block.
pub mod area;
pub mod hash;
pub mod members;

ghost use Rattle.std.specs.Prelude.{◌≡◌, ◌+◌, ◌*◌, ◌<◌, ◌≤◌, length, ◌==◌};
ghost use Rattle.octets.specs.Name.{order_of};
ghost use Rattle.octets.specs.Run.{Mask};
ghost use Rattle.record.specs.Fields.{public_of};
ghost use Rattle.blocks.specs.Blocks.{block_of};
ghost use Rattle.table.specs.Check.{is_less, rises_at, stands_at, check_records, check_table};
ghost use Rattle.table.specs.Leading.{leading, setless, Setless, outcome_of};
ghost use Rattle.table.specs.Padded.{Padded, Before};

use blocks::{BLOCK, Checked, block};
use octets::{name, run};
use record::header::Header;
use record::subscriber::Record;
use record::{fields, header, sets, subscriber};
use std::cmp::Ordering;

// Whether the public identity of one block is less than that of another. Both have zeros past it, so that the whole fields are compared, which
// have one length; where they are the same, the shorter name comes first.
fn less(a: &[u8; BLOCK], b: &[u8; BLOCK]) -> bool
    requires { Padded a.now × Padded b.now }
    ensures { result ≡ is_less (order_of (public_of a.now) (public_of b.now)) }
{
    match name::field_order(fields::public_field(a), fields::public_field(b)) {
        Ordering::Less => true,
        Ordering::Equal => a[Record::PUBLIC_LENGTH_AT] < b[Record::PUBLIC_LENGTH_AT],
        Ordering::Greater => false,
    }
}

// Whether the public identity of block k comes after that of the record before, if there is one.
fn rises(t: &[u8], k: usize) -> bool
    requires { (1 ≤ k) × (512 * k + 512 ≤ length t.now) × Before t.now k × Padded (block_of t.now k) }
    ensures { result ≡ rises_at t.now k }
{
    k <= 1 || less(block(t, k - 1), block(t, k))
}

// Whether block k is a sound record in its place. Only a sound one is compared with the record before.
fn stands(t: &[u8], h: Header, file: usize, mask: &[u8], k: usize) -> bool
    requires { (1 ≤ k) × (k ≤ 4096) × (h.networks ≤ 8) × (512 * k + 512 ≤ length t.now) × Before t.now k × Mask mask.now }
    ensures { result ≡ stands_at t.now h file k }
{
    subscriber::sound(block(t, k), k as u32, h, file, mask) && rises(t, k)
}

// The number of the set of record i + 1.
fn set_after(t: &[u8], i: usize) -> u32
    requires { 512 * i + 1024 ≤ length t.now }
    ensures { (result == 0) ≡ setless t.now i }
{
    sets::set(block(t, i + 1))
}

// How many records from the first on stand in their places, and whether none of them nor the next one has a set: its bytes are at hand in this pass.
#[derive(Clone, Copy)]
struct Stood {
    records: usize,
    setless: bool,
}

fn standing(t: &[u8], h: Header, file: usize, mask: &[u8]) -> Stood
    requires { (h.count ≤ 4096) × (h.networks ≤ 8) × (length t.now ≡ 512 * (h.count + 1)) × Mask mask.now }
    ensures { (result.records ≡ leading (stands_at t.now h file) h.count 1) × (result.records ≤ h.count)
        × Setless t.now result.records result.setless }
{
    let count = h.count as usize;
    let mut sets: u32 = 0;
    for m in 0..count {
        sets |= set_after(t, m);
        if !stands(t, h, file, mask, m + 1) {
            return Stood {
                records: m,
                setless: sets == 0,
            };
        }
    }
    Stood {
        records: count,
        setless: sets == 0,
    }
}

// What the first m records being sound and the next one not, if there is one, says of them all.
fn outcome(count: usize, m: usize) -> Checked
    requires { (count ≤ 4096) × (m ≤ count) }
    ensures { result ≡ outcome_of count m }
{
    if m < count {
        return Err(m as u32 + 1);
    }
    Ok(count as u32)
}

// The records of a table, under its header: first each in its place, then the sets of those that stand.
fn records(t: &[u8], h: Header, file: usize, mask: &[u8]) -> Checked
    requires { (h.count ≤ 4096) × (h.networks ≤ 8) × (length t.now ≡ 512 * (h.count + 1)) × Mask mask.now }
    ensures { result ≡ check_records t.now h file }
{
    let count = h.count as usize;
    let s = standing(t, h, file, mask);
    if s.setless {
        return outcome(count, s.records);
    }
    outcome(count, members::agreeing(t, s.records))
}

// The whole table against a profile file of such a length.
pub fn check(t: &[u8], file: usize) -> Checked
    ensures { result ≡ check_table t.now file }
{
    if t.len() < BLOCK {
        return Err(0);
    }
    let b = block(t, 0);
    let h = Header::read(b);
    let mask = run::mask();
    if !header::sound(b, &mask) || t.len() != BLOCK * (h.count as usize + 1) {
        return Err(0);
    }
    records(t, h, file, &mask)
}
