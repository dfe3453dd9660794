#![tactic(auto)]
// Taking over a new table: it is written over the working area, block by block.
ghost use Rattle.std.specs.Prelude.{◌≡◌, ◌+◌, ◌*◌, ◌/◌, ◌≤◌, length};
ghost use Rattle.octets.specs.Run.{over};
ghost use Rattle.taking.specs.Found.{greater_at, greater_than_all};
ghost use Rattle.taking.specs.TakeOver.{unfit, came, take_over};
ghost use Rattle.taking.specs.Written.{Begun, with_block};

use blocks::{BLOCK, block};
use octets::{number, run};
use record::header::Header;
use record::subscriber::Record;

// The refusals, by their numbers.
pub const UNFIT: u16 = 9;

pub const NOT_GREATER: u16 = 10;

pub const TOO_SHORT: u16 = 11;

// A refusal's number.
#[derive(Clone, Copy, PartialEq, Eq)]
pub struct Refusal {
    pub number: u16,
}

// Whether an issue number is greater than the one found in block k, if one is found there.
fn greater_at(area: &[u8], issue: u32, k: usize) -> bool
    requires { 512 * k + 512 ≤ length area.now }
    ensures { result ≡ greater_at area.now issue k }
{
    let b = block(area, k);
    let kind = b[Header::KIND_AT];
    !((kind == Header::KIND) | (kind == Record::KIND)) | (number::be32(b, Header::ISSUE_AT) < issue)
}

// How many whole blocks an area has, whatever its header counts.
fn whole_blocks(area: &[u8]) -> usize
    ensures { result ≡ length area.now / 512 }
{
    area.len() / BLOCK
}

// Whether it is greater than every one found, in all of them.
fn greater_than_all(area: &[u8], issue: u32) -> bool
    ensures { result ≡ greater_than_all area.now issue }
{
    for k in 0..whole_blocks(area) {
        if !greater_at(area, issue, k) {
            return false;
        }
    }
    true
}

// Whether a new table is unsound or of edition 1.
fn unfit(fresh: &[u8], file: usize) -> bool
    ensures { result ≡ unfit fresh.now file }
{
    match table::check(fresh, file) {
        Ok(_) => Header::read(block(fresh, 0)).edition == Header::FIRST_EDITION,
        Err(_) => true,
    }
}

// Writes block k of the new table in its place, behind the blocks before it: "block by block from block 0".
fn write_block(area: &mut [u8], fresh: &[u8], k: usize)
    requires { (512 * k + 512 ≤ length area.old) × (512 * k + 512 ≤ length fresh.now) × Begun area.old fresh.now k }
    ensures { area.new ≡ with_block area.old fresh.now k }
{
    let at = BLOCK * k;
    run::copy(&mut area[at..at + BLOCK], block(fresh, k));
}

// Writes every block in turn, one call each. The contract says what the area is at the end; that after k turns the first k blocks are the new table's and all
// others are as they came is the loop's invariant, in proofs/write_all.
fn write_all(area: &mut [u8], fresh: &[u8], blocks: usize)
    requires { (length fresh.now ≡ 512 * blocks) × (length fresh.now ≤ length area.old) }
    ensures { area.new ≡ over fresh.now area.old }
{
    for k in 0..blocks {
        write_block(area, fresh, k);
    }
}

// The new table over the area, beside a profile file of such a length. Answers how many records it has.
pub fn take(area: &mut [u8], fresh: &[u8], file: usize) -> Result<u32, Refusal>
    ensures { came result area.new ≡ take_over area.old fresh.now file }
{
    if unfit(fresh, file) {
        return Err(Refusal { number: UNFIT });
    }
    let h = Header::read(block(fresh, 0));
    if !greater_than_all(area, h.issue) {
        return Err(Refusal {
            number: NOT_GREATER,
        });
    }
    if area.len() < fresh.len() {
        return Err(Refusal { number: TOO_SHORT });
    }
    write_all(area, fresh, h.count as usize + 1);
    Ok(h.count)
}
