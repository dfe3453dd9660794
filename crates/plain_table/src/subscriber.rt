// "Record": its block, sentence by sentence; two records of one set.
ghost use Rattle.std.specs.Prelude.{◌≡◌, ◌≤◌, length};
ghost use Rattle.record.specs.RecordBlock.{is_record, sound_set, sound_limits, sound_server, sound_roaming, sound_profile, sound_rest, sound_record};
ghost use Rattle.record.specs.Sets.{same_set, agreeing};

use crate::bytes;
use octets::{number, run};
use record::fields;
use record::header::Header;
use record::subscriber::Record;

// "0 kind 2; 1 edition 1; 4-7 block number"; 02 [5]: "a table that mixes editions or issue numbers is unsound"
fn beginning(r: Record, k: u32, h: Header) -> bool
    ensures { result ≡ is_record r k h }
{
    (r.kind == 2) & (r.edition == h.edition) & (r.number == k) & (r.issue == h.issue)
}

// 02 [5]: "an implicit set number (bytes 406-407, 0 for none)"; "Edition 1 remains readable, with every set 0"
fn set_number(r: Record) -> bool
    ensures { result ≡ sound_set r }
{
    (r.set == 0) | (r.edition == 2)
}

// "8 state (0 .., 1 .., 2 ..); 9 bits 0 .., 1 .., 2 .., no others"; "11, 12 counts of .. capabilities (0 to 4 each); 13, 14, 15 lengths of public identity
// (1 to 128), private identity (1 to 128), server name (0 to 96)"; "profile .. length at most 4,096"
fn limits(r: Record) -> bool
    ensures { result ≡ sound_limits r }
{
    (r.state <= 2)
        & (r.bits <= 7)
        & (r.mandatory <= 4)
        & (r.optional <= 4)
        & (1 <= r.public)
        & (r.public <= 128)
        & (1 <= r.private)
        & (r.private <= 128)
        & (r.server <= 96)
        & (r.size <= 4096)
}

// "State 1 or 2 needs a server name; state 0 has one exactly if pending is set."
fn server_name(r: Record) -> bool
    ensures { result ≡ sound_server r }
{
    let pending = r.bits % 2 == 1;
    (r.server == 0) & ((r.state == 0) & !pending) | (0 < r.server) & ((0 < r.state) | pending)
}

// "10 roaming, bit n for network n, none past the last"
fn roaming(r: Record, networks: u32) -> bool
    requires { networks ≤ 8 }
    ensures { result ≡ sound_roaming r networks }
{
    (r.roaming as u32) < (1u32 << networks)
}

// "400-403 and 404-405 profile start and length, .. start + length within the profile file"
fn profile(r: Record, file: usize) -> bool
    ensures { result ≡ sound_profile r file }
{
    (r.start as usize) + (r.size as usize) <= file
}

// "Bytes not named are zero, and so are unused places in a field": "16-143, 144-271, 272-367 these names; 368-383, 384-399 capabilities, 32 bits each"
fn rest(b: &[u8; 512], r: Record) -> bool
    ensures { result ≡ sound_rest b.now r }
{
    run::zero_between(b, 2, 4)
        & (run::zero_between(b, 16 + (r.public as usize), 144)
            & run::zero_between(b, 144 + (r.private as usize), 272)
            & run::zero_between(b, 272 + (r.server as usize), 368))
        & (run::zero_between(b, 368 + 4 * (r.mandatory as usize), 384)
            & run::zero_between(b, 384 + 4 * (r.optional as usize), 400))
        & run::zero_between(b, 412, 508)
}

// Whether a block is sound as record k, under a header and beside a profile file of such a length.
pub fn sound(b: &[u8; 512], k: u32, h: Header, file: usize) -> bool
    requires { h.networks ≤ 8 }
    ensures { result ≡ sound_record b.now k h file }
{
    let r = Record::read(b);
    (bytes::sum(b) == 0)
        & beginning(r, k, h)
        & set_number(r)
        & limits(r)
        & server_name(r)
        & roaming(r, h.networks as u32)
        & profile(r, file)
        & rest(b, r)
}

// 02 [6]: "A set is the records of one subscription with the same nonzero number"
pub fn same_set(a: &[u8; 512], b: &[u8; 512]) -> bool
    ensures { result ≡ same_set a.now b.now }
{
    let set = number::be16(a, Record::SET_AT);
    (0 < set)
        & (set == number::be16(b, Record::SET_AT))
        & bytes::same(fields::private(a), fields::private(b))
}

// "all records of a set agree in state, pending and server name"
pub fn agree(a: &[u8; 512], b: &[u8; 512]) -> bool
    ensures { result ≡ agreeing a.now b.now }
{
    (a[Record::STATE_AT] == b[Record::STATE_AT])
        & (a[Record::BITS_AT] % 2 == b[Record::BITS_AT] % 2)
        & bytes::same(fields::server(a), fields::server(b))
}
