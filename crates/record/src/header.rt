// The header block.
ghost use Rattle.std.specs.Prelude.{◌≡◌, ◌≤◌};
ghost use Rattle.octets.specs.Run.{Mask};
ghost use Rattle.record.specs.HeaderBlock.{header_of, sound_counts, sound_edition, is_header, sound_numbers, sound_header_rest, sound_header};

use crate::networks;
use octets::{number, run, sum};

// The numbers of the header block. Its names stay in the table.
#[derive(Clone, Copy)]
pub struct Header {
    pub kind: u8,
    pub edition: u8,
    pub number: u32,
    pub count: u32,
    pub keep: u8,
    pub host: u8,
    pub realm: u8,
    pub networks: u8,
    pub issue: u32,
}

impl Header {
    // Where each field stands.
    pub const KIND_AT: usize = 0;

    pub const EDITION_AT: usize = 1;

    pub const BLANK_AT: usize = 2;

    pub const NUMBER_AT: usize = 4;

    pub const COUNT_AT: usize = 8;

    pub const KEEP_AT: usize = 12;

    pub const HOST_LENGTH_AT: usize = 13;

    pub const REALM_LENGTH_AT: usize = 14;

    pub const NETWORKS_AT: usize = 15;

    pub const HOST_AT: usize = 16;

    pub const REALM_AT: usize = 80;

    pub const PLACES_AT: usize = 144;

    pub const REST_AT: usize = 400;

    pub const ISSUE_AT: usize = 408;

    pub const LAST_AT: usize = 412;

    pub const CHECK_AT: usize = 508;

    // What each may hold.
    pub const KIND: u8 = 1;

    pub const FIRST_EDITION: u8 = 1;

    pub const SECOND_EDITION: u8 = 2;

    pub const NUMBER: u32 = 0;

    pub const MOST_COUNT: u32 = 4096;

    pub const MOST_KEEP: u8 = 1;

    pub const LEAST_NAME: u8 = 1;

    pub const MOST_NAME: u8 = 64;

    pub const MOST_NETWORKS: u8 = 8;

    // The numbers of a block.
    pub fn read(b: &[u8; 512]) -> Header
        ensures { result ≡ header_of b.now }
    {
        Header {
            kind: b[Header::KIND_AT],
            edition: b[Header::EDITION_AT],
            number: number::be32(b, Header::NUMBER_AT),
            count: number::be32(b, Header::COUNT_AT),
            keep: b[Header::KEEP_AT],
            host: b[Header::HOST_LENGTH_AT],
            realm: b[Header::REALM_LENGTH_AT],
            networks: b[Header::NETWORKS_AT],
            issue: number::be32(b, Header::ISSUE_AT),
        }
    }

    // The counts of records and of networks.
    fn counts(self) -> bool
        ensures { result ≡ sound_counts self }
    {
        (self.count <= Header::MOST_COUNT) & (self.networks <= Header::MOST_NETWORKS)
    }

    // One of the two editions; the first names no issue number.
    fn edition(self) -> bool
        ensures { result ≡ sound_edition self }
    {
        (self.edition == Header::FIRST_EDITION) & (self.issue == 0)
            | (self.edition == Header::SECOND_EDITION)
    }

    // The kind, the edition and the block's number.
    fn is_header(self) -> bool
        ensures { result ≡ is_header self }
    {
        (self.kind == Header::KIND) & self.edition() & (self.number == Header::NUMBER)
    }

    // Keep, and the lengths of host and realm.
    fn numbers(self) -> bool
        ensures { result ≡ sound_numbers self }
    {
        (self.keep <= Header::MOST_KEEP)
            & (Header::LEAST_NAME <= self.host)
            & (self.host <= Header::MOST_NAME)
            & (Header::LEAST_NAME <= self.realm)
            & (self.realm <= Header::MOST_NAME)
    }
}

// "Bytes not named are zero, and so are unused places in a field": as of a record, one number is tested.
fn rest(b: &[u8; 512], h: Header, mask: &[u8]) -> bool
    requires { (h.host ≤ 64) × (h.realm ≤ 64) × Mask mask.now }
    ensures { result ≡ sound_header_rest b.now h }
{
    let blank = number::be16(b, Header::BLANK_AT) as usize;
    (blank
        | run::set_past(b, Header::HOST_AT, 8, h.host as usize, mask)
        | run::set_past(b, Header::REALM_AT, 8, h.realm as usize, mask)
        | run::set_bits(b, Header::REST_AT, 1)
        | run::set_bits(b, Header::LAST_AT, 12))
        == 0
}

// Whether a block is a sound header. Its numbers come first, as of a record.
pub fn sound(b: &[u8; 512], mask: &[u8]) -> bool
    requires { Mask mask.now }
    ensures { result ≡ sound_header b.now }
{
    let h = Header::read(b);
    h.counts() & h.is_header() & h.numbers()
        && (sum::sum_words(b, 128) == 0)
            & rest(b, h, mask)
            & networks::sound(b, h.networks as usize)
}
