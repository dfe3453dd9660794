#![tactic(auto)]
// Records written anew: another state, pending cleared or set, another server name, a new check word.
ghost use Rattle.std.specs.Prelude.{◌≡◌, cond, [], ◌∷◌, ◌+◌, ◌*◌, ◌≤◌, ◌<◌, length};
ghost use Rattle.octets.specs.Name.{same};
ghost use Rattle.record.specs.Fields.{set_of};
ghost use Rattle.record.specs.Sets.{same_set};
ghost use Rattle.blocks.specs.Blocks.{block_of};
ghost use Rattle.table.specs.SoundTable.{SoundTable};
ghost use Rattle.blocks.specs.Changed.{changed_in};
ghost use Rattle.rewrite.specs.Change.{after_of, reaches, differ, altered_up_to};
ghost use Rattle.rewrite.specs.Renew.{renewed, settled, challenged};
ghost use Rattle.rewrite.specs.Fitting.{Fitting, change_of, ChangeFits};

use blocks::BLOCK;
use octets::{name, run, sum};
use record::subscriber::Record;
use record::{fields, sets};

// What an effect does to a record: "Effects, pending cleared", with the state that it gets; or what goes with a challenge.
#[derive(Clone, Copy)]
pub enum Change {
    Settled(u8),
    Challenged,
}

// Gives a record block another state, other bits and another server name, all bytes of its field.
fn renew(b: &mut [u8; BLOCK], state: u8, bits: u8, name: &[u8])
    requires { length name.now ≤ 96 }
    ensures { b.new ≡ renewed b.old state bits name.now }
{
    b[Record::STATE_AT] = state;
    b[Record::BITS_AT] = bits;
    b[Record::SERVER_LENGTH_AT] = name.len() as u8;
    run::put_name(b, Record::SERVER_AT, Record::SERVER_FIELD, name);
    blocks::seal(b);
}

// Whether a record block is already as it would be renewed: state, bits and name, zeros after the name, and a check word that is right.
fn held(b: &[u8; BLOCK], state: u8, bits: u8, name: &[u8]) -> bool
    requires { length name.now ≤ 96 }
    ensures { result ≡ same b.now (renewed b.now state bits name.now) }
{
    (b[Record::STATE_AT] == state)
        & (b[Record::BITS_AT] == bits)
        & name::same(fields::server(b), name)
        & run::zero_between(b, Record::SERVER_AT + name.len(), Record::MANDATORY_AT)
        & (sum::sum_words(b, 128) == 0)
}

// The same as renew. Answers 1 if the block has other bytes then, else 0.
fn renew_counted(b: &mut [u8; BLOCK], state: u8, bits: u8, name: &[u8]) -> u32
    requires { length name.now ≤ 96 }
    ensures { (b.new ≡ renewed b.old state bits name.now) × (result ≡ differ b.old b.new) × (result ≤ 1) }
{
    if held(b, state, bits, name) {
        return 0;
    }
    renew(b, state, bits, name);
    1
}

// Gives a record block another state and another server name, and clears pending.
fn settle_block(b: &mut [u8; BLOCK], state: u8, name: &[u8]) -> u32
    requires { Fitting state name.now }
    ensures { (b.new ≡ settled state name.now b.old) × (result ≡ differ b.old b.new) × (result ≤ 1) }
{
    let bits = Record::read(b).cleared();
    renew_counted(b, state, bits, name)
}

// "The Server-Name is stored if different; pending is set if state is 0 or the name changed."
fn challenge_block(b: &mut [u8; BLOCK], name: &[u8]) -> u32
    requires { length name.now ≤ 96 }
    ensures { (b.new ≡ challenged name.now b.old) × (result ≡ differ b.old b.new) × (result ≤ 1) }
{
    let state = b[Record::STATE_AT];
    if (state == 0) | !name::same(fields::server(b), name) {
        let bits = Record::read(b).pending_set();
        return renew_counted(b, state, bits, name);
    }
    0
}

// The same of either.
fn change_block(b: &mut [u8; BLOCK], c: Change, name: &[u8]) -> u32
    requires { ChangeFits c name.now }
    ensures { (b.new ≡ change_of c name.now b.old) × (result ≡ differ b.old b.new) × (result ≤ 1) }
{
    match c {
        Change::Settled(state) => settle_block(b, state, name),
        Change::Challenged => challenge_block(b, name),
    }
}

// The same, of block k of a table.
fn change_at(t: &mut [u8], k: usize, c: Change, name: &[u8]) -> u32
    requires { (512 * k + 512 ≤ length t.old) × ChangeFits c name.now }
    ensures { (t.new ≡ changed_in t.old k (change_of c name.now))
        × (result ≡ differ t.old t.new) × (result ≤ 1) }
{
    let (_, rest) = t.split_at_mut(BLOCK * k);
    change_block(rest.first_chunk_mut().unwrap(), c, name)
}

// The same, if the record is chosen.
pub fn change_if(t: &mut [u8], k: usize, chosen: bool, c: Change, name: &[u8]) -> u32
    requires { (512 * k + 512 ≤ length t.old) × ChangeFits c name.now }
    ensures { (t.new ≡ cond chosen (changed_in t.old k (change_of c name.now)) t.old)
        × (result ≡ differ t.old t.new) × (result ≤ 1) }
{
    if chosen {
        return change_at(t, k, c, name);
    }
    0
}

// Whether blocks k and j are of one set.
fn same_set(t: &[u8], k: usize, j: usize) -> bool
    requires { (512 * k + 512 ≤ length t.now) × (512 * j + 512 ≤ length t.now) }
    ensures { result ≡ same_set (block_of t.now k) (block_of t.now j) }
{
    sets::same_set(blocks::block(t, k), blocks::block(t, j))
}

// Every record of the set of block k, which has one. What is asked of block k stays as it is written.
fn change_members(t: &mut [u8], count: usize, k: usize, c: Change, name: &[u8]) -> u32
    requires { SoundTable t.old count × (1 ≤ k) × (k ≤ count) × ChangeFits c name.now × (0 < set_of (block_of t.old k)) }
    ensures { (t.new ≡ after_of t.old count (reaches t.old (k ∷ [])) (change_of c name.now))
        × (result ≡ altered_up_to t.old t.new count) }
{
    let mut altered = 0;
    for i in 0..count {
        let j = i + 1;
        let chosen = same_set(t, k, j);
        altered += change_if(t, j, chosen, c, name);
    }
    altered
}

// "Every effect of a SAR or an authentication request reaches the whole set": block k's record and those of its set. Answers how many records have other
// bytes then.
pub fn change_set(t: &mut [u8], count: usize, k: usize, c: Change, name: &[u8]) -> u32
    requires { SoundTable t.old count × (1 ≤ k) × (k ≤ count) × ChangeFits c name.now }
    ensures { (t.new ≡ after_of t.old count (reaches t.old (k ∷ [])) (change_of c name.now))
        × (result ≡ altered_up_to t.old t.new count) }
{
    if sets::set(blocks::block(t, k)) == 0 {
        return change_at(t, k, c, name);
    }
    change_members(t, count, k, c, name)
}
