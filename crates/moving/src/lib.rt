#![tactic(auto)]
// The move of a table from edition 1 to edition 2, and the move back, in place.
ghost use Rattle.std.specs.Prelude.{◌≡◌, ◌+◌, ◌*◌, ◌≤◌, length};
ghost use Rattle.blocks.specs.Changed.{changed_in};
ghost use Rattle.moving.specs.Moves.{moved, moved_all, no_set, first_set};
ghost use Rattle.moving.specs.Outcomes.{came, of_edition, forward, back};

use blocks::{BLOCK, Checked};
use octets::number;
use record::header::Header;
use record::subscriber::Record;

// The refusals of a move, by their numbers.
pub const UNSOUND: u16 = 5;

pub const SETS: u16 = 8;

// A refusal's number, with the block that it blames.
#[derive(Clone, Copy, PartialEq, Eq)]
pub struct Refusal {
    pub number: u16,
    pub block: u32,
}

// Gives a block another edition and issue number, and a new check word.
fn move_block(b: &mut [u8; BLOCK], edition: u8, issue: u32)
    ensures { b.new ≡ moved edition issue b.old }
{
    b[Record::EDITION_AT] = edition;
    number::put_be32(b, Record::ISSUE_AT, issue);
    blocks::seal(b);
}

// Block k of a table.
fn move_at(t: &mut [u8], k: usize, edition: u8, issue: u32)
    requires { 512 * k + 512 ≤ length t.old }
    ensures { t.new ≡ changed_in t.old k (moved edition issue) }
{
    let (_, rest) = t.split_at_mut(BLOCK * k);
    move_block(rest.first_chunk_mut().unwrap(), edition, issue);
}

// Every block, the header too.
fn move_all(t: &mut [u8], count: usize, edition: u8, issue: u32)
    requires { (count ≤ 4096) × (length t.old ≡ 512 * (count + 1)) }
    ensures { t.new ≡ moved_all t.old count edition issue }
{
    for k in 0..count + 1 {
        move_at(t, k, edition, issue);
    }
}

// Whether record k has no set.
fn no_set(t: &[u8], k: usize) -> bool
    requires { 512 * k + 512 ≤ length t.now }
    ensures { result ≡ no_set t.now k }
{
    number::be16(blocks::block(t, k), Record::SET_AT) == 0
}

// The first record that has a set, and the count where none has.
fn first_set(t: &[u8], count: usize) -> Checked
    requires { (count ≤ 4096) × (length t.now ≡ 512 * (count + 1)) }
    ensures { result ≡ first_set t.now count }
{
    for k in 1..=count {
        if !no_set(t, k) {
            return Err(k as u32);
        }
    }
    Ok(count as u32)
}

// How many records a sound table of an edition has.
fn of_edition(t: &[u8], file: usize, edition: u8) -> Result<u32, Refusal>
    ensures { result ≡ of_edition t.now file edition }
{
    let count = table::check(t, file).map_err(|block| Refusal {
        number: UNSOUND,
        block,
    })?;
    if t[Header::EDITION_AT] != edition {
        return Err(Refusal {
            number: UNSOUND,
            block: 0,
        });
    }
    Ok(count)
}

// From edition 1 to edition 2, beside a profile file of such a length. Answers how many records were moved.
pub fn forward(t: &mut [u8], file: usize, issue: u32) -> Result<u32, Refusal>
    ensures { came result t.new ≡ forward t.old file issue }
{
    let count = of_edition(t, file, Header::FIRST_EDITION)?;
    move_all(t, count as usize, Header::SECOND_EDITION, issue);
    Ok(count)
}

// From edition 2 back to edition 1, if no record has a set.
pub fn back(t: &mut [u8], file: usize) -> Result<u32, Refusal>
    ensures { came result t.new ≡ back t.old file }
{
    let count = of_edition(t, file, Header::SECOND_EDITION)?;
    if let Err(block) = first_set(t, count as usize) {
        return Err(Refusal {
            number: SETS,
            block,
        });
    }
    move_all(t, count as usize, Header::FIRST_EDITION, 0);
    Ok(count)
}
