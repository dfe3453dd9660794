#![tactic(auto)]
// What an answer takes out of the table and the profile file, as parts of them.
ghost use Rattle.std.specs.Prelude.{◌≡◌, ◌&&◌, ◌+◌, ◌*◌, ◌≤◌, length, take, drop, leb, ltb, true, false, MatchOption};
ghost use Rattle.record.specs.Fields.{host_of, realm_of, private_of, public_of, server_of, mandatory_of, optional_of, profile_of};
ghost use Rattle.blocks.specs.Blocks.{block_of, of_block};
ghost use Rattle.table.specs.SoundTable.{SoundTable};
ghost use Rattle.parts.specs.Profile.{profile_at};

use blocks::BLOCK;
use octets::number;
use record::fields;
use record::subscriber::Record;

// Origin-Host and Origin-Realm.
pub fn host(t: &[u8], count: usize) -> &[u8]
    requires { SoundTable t.now count }
    ensures { (result.now ≡ host_of (block_of t.now 0)) × (length result.now ≤ 64) }
{
    fields::host(blocks::block(t, 0))
}

pub fn realm(t: &[u8], count: usize) -> &[u8]
    requires { SoundTable t.now count }
    ensures { (result.now ≡ realm_of (block_of t.now 0)) × (length result.now ≤ 64) }
{
    fields::realm(blocks::block(t, 0))
}

// The block of record k, where k is a record's number.
fn record(t: &[u8], count: usize, k: usize) -> Option<&[u8; BLOCK]>
    requires { SoundTable t.now count }
    ensures { MatchOption result ((ltb 0 k && leb k count) ≡ false)
        (λ b. ((ltb 0 k && leb k count) ≡ true) × (b.now ≡ block_of t.now k)) }
{
    if (0 < k) & (k <= count) {
        return Some(blocks::block(t, k));
    }
    None
}

// Of record k: its private identity, its public identity, its server name, its capabilities. Where k is no record's number, nothing.
pub fn user(t: &[u8], count: usize, k: usize) -> &[u8]
    requires { SoundTable t.now count }
    ensures { (result.now ≡ of_block private_of t.now k) × (length result.now ≤ 128) }
{
    match record(t, count, k) {
        Some(b) => fields::private(b),
        None => &[],
    }
}

pub fn public(t: &[u8], count: usize, k: usize) -> &[u8]
    requires { SoundTable t.now count }
    ensures { (result.now ≡ of_block public_of t.now k) × (length result.now ≤ 128) }
{
    match record(t, count, k) {
        Some(b) => fields::public(b),
        None => &[],
    }
}

pub fn server(t: &[u8], count: usize, k: usize) -> &[u8]
    requires { SoundTable t.now count }
    ensures { (result.now ≡ of_block server_of t.now k) × (length result.now ≤ 96) }
{
    match record(t, count, k) {
        Some(b) => fields::server(b),
        None => &[],
    }
}

// The n words from a place of a block on.
fn words(b: &[u8; BLOCK], at: usize, n: usize) -> &[u8]
    requires { (n ≤ 4) × (at + 16 ≤ 512) }
    ensures { result.now ≡ take (4 * n) (drop at b.now) }
{
    &b[at..at + 4 * n]
}

pub fn mandatory(t: &[u8], count: usize, k: usize) -> &[u8]
    requires { SoundTable t.now count }
    ensures { (result.now ≡ of_block mandatory_of t.now k) × (length result.now ≤ 16) }
{
    match record(t, count, k) {
        Some(b) => words(
            b,
            Record::MANDATORY_AT,
            octets::byte(b, Record::MANDATORY_COUNT_AT),
        ),
        None => &[],
    }
}

pub fn optional(t: &[u8], count: usize, k: usize) -> &[u8]
    requires { SoundTable t.now count }
    ensures { (result.now ≡ of_block optional_of t.now k) × (length result.now ≤ 16) }
{
    match record(t, count, k) {
        Some(b) => words(
            b,
            Record::OPTIONAL_AT,
            octets::byte(b, Record::OPTIONAL_COUNT_AT),
        ),
        None => &[],
    }
}

// The part of the profile file that a record's block names, cut at the file's end.
fn profile_in<'a>(b: &[u8; BLOCK], file: &'a [u8]) -> &'a [u8]
    ensures { result.now ≡ profile_of b.now file.now }
{
    let from = (number::be32(b, Record::PROFILE_START_AT) as usize).min(file.len());
    let size = number::be16(b, Record::PROFILE_LENGTH_AT) as usize;
    let to = from + size.min(file.len() - from);
    &file[from..to]
}

// The user data of record k, or nothing.
pub fn profile<'a>(t: &[u8], count: usize, file: &'a [u8], k: usize) -> &'a [u8]
    requires { SoundTable t.now count }
    ensures { (result.now ≡ profile_at t.now file.now k) × (length result.now ≤ 4096) }
{
    match record(t, count, k) {
        Some(b) => profile_in(b, file),
        None => &[],
    }
}
