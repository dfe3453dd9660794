// A record block: one public identity of a subscriber.
ghost use Rattle.std.specs.Prelude.{◌≡◌, ◌≤◌, eqb};
ghost use Rattle.octets.specs.Run.{Mask};
ghost use Rattle.record.specs.Fields.{pending, barred, unregistered_services, cleared, pending_set};
ghost use Rattle.record.specs.RecordBlock.{record_of, is_record, sound_set, sound_limits, sound_server, sound_roaming, sound_profile};
ghost use Rattle.record.specs.RecordBlock.{past_names, past_capabilities, sound_rest, sound_record};

use crate::header::Header;
use octets::{number, run, sum};

// The numbers of a record block. Its names stay in the table.
#[derive(Clone, Copy)]
pub struct Record {
    pub kind: u8,
    pub edition: u8,
    pub number: u32,
    pub state: u8,
    pub bits: u8,
    pub roaming: u8,
    pub mandatory: u8,
    pub optional: u8,
    pub public: u8,
    pub private: u8,
    pub server: u8,
    pub start: u32,
    pub size: u32,
    pub set: u32,
    pub issue: u32,
}

impl Record {
    // Where each field stands.
    pub const KIND_AT: usize = 0;

    pub const EDITION_AT: usize = 1;

    pub const BLANK_AT: usize = 2;

    pub const NUMBER_AT: usize = 4;

    pub const STATE_AT: usize = 8;

    pub const BITS_AT: usize = 9;

    pub const ROAMING_AT: usize = 10;

    pub const MANDATORY_COUNT_AT: usize = 11;

    pub const OPTIONAL_COUNT_AT: usize = 12;

    pub const PUBLIC_LENGTH_AT: usize = 13;

    pub const PRIVATE_LENGTH_AT: usize = 14;

    pub const SERVER_LENGTH_AT: usize = 15;

    pub const PUBLIC_AT: usize = 16;

    pub const PRIVATE_AT: usize = 144;

    pub const SERVER_AT: usize = 272;

    pub const MANDATORY_AT: usize = 368;

    pub const OPTIONAL_AT: usize = 384;

    pub const PROFILE_START_AT: usize = 400;

    pub const PROFILE_LENGTH_AT: usize = 404;

    pub const SET_AT: usize = 406;

    pub const ISSUE_AT: usize = 408;

    pub const REST_AT: usize = 412;

    pub const CHECK_AT: usize = 508;

    // The bytes of the server name's field.
    pub const SERVER_FIELD: usize = 96;

    // What each may hold.
    pub const KIND: u8 = 2;

    pub const FIRST_EDITION: u8 = 1;

    pub const SECOND_EDITION: u8 = 2;

    pub const MOST_STATE: u8 = 2;

    pub const MOST_BITS: u8 = 7;

    pub const MOST_CAPABILITIES: u8 = 4;

    pub const LEAST_IDENTITY: u8 = 1;

    pub const MOST_IDENTITY: u8 = 128;

    pub const MOST_SERVER: u8 = 96;

    pub const MOST_PROFILE: u32 = 4096;

    // The numbers of a block.
    pub fn read(b: &[u8; 512]) -> Record
        ensures { result ≡ record_of b.now }
    {
        Record {
            kind: b[Record::KIND_AT],
            edition: b[Record::EDITION_AT],
            number: number::be32(b, Record::NUMBER_AT),
            state: b[Record::STATE_AT],
            bits: b[Record::BITS_AT],
            roaming: b[Record::ROAMING_AT],
            mandatory: b[Record::MANDATORY_COUNT_AT],
            optional: b[Record::OPTIONAL_COUNT_AT],
            public: b[Record::PUBLIC_LENGTH_AT],
            private: b[Record::PRIVATE_LENGTH_AT],
            server: b[Record::SERVER_LENGTH_AT],
            start: number::be32(b, Record::PROFILE_START_AT),
            size: number::be16(b, Record::PROFILE_LENGTH_AT),
            set: number::be16(b, Record::SET_AT),
            issue: number::be32(b, Record::ISSUE_AT),
        }
    }

    // "bits 0 pending, 1 barred, 2 unregistered services"
    pub fn pending(self) -> bool
        ensures { result ≡ pending self.bits }
    {
        self.bits % 2 == 1
    }

    pub fn barred(self) -> bool
        ensures { result ≡ barred self.bits }
    {
        self.bits / 2 % 2 == 1
    }

    pub fn unregistered_services(self) -> bool
        ensures { result ≡ unregistered_services self.bits }
    {
        self.bits / 4 % 2 == 1
    }

    // The bits with pending cleared.
    pub fn cleared(self) -> u8
        ensures { result ≡ cleared self.bits }
    {
        self.bits - self.bits % 2
    }

    // The bits with pending set.
    pub fn pending_set(self) -> u8
        ensures { result ≡ pending_set self.bits }
    {
        self.bits - self.bits % 2 + 1
    }

    // The kind and the block's number; the edition and the issue number are the header's.
    fn is_record(self, k: u32, h: Header) -> bool
        ensures { result ≡ is_record self k h }
    {
        (self.kind == Record::KIND)
            & (self.edition == h.edition)
            & (self.number == k)
            & (self.issue == h.issue)
    }

    // No set number in the first edition.
    fn set_sound(self) -> bool
        ensures { result ≡ sound_set self }
    {
        (self.set == 0) | (self.edition == Record::SECOND_EDITION)
    }

    // Each number within its limits.
    fn limits(self) -> bool
        ensures { result ≡ sound_limits self }
    {
        (self.state <= Record::MOST_STATE)
            & (self.bits <= Record::MOST_BITS)
            & (self.mandatory <= Record::MOST_CAPABILITIES)
            & (self.optional <= Record::MOST_CAPABILITIES)
            & (Record::LEAST_IDENTITY <= self.public)
            & (self.public <= Record::MOST_IDENTITY)
            & (Record::LEAST_IDENTITY <= self.private)
            & (self.private <= Record::MOST_IDENTITY)
            & (self.server <= Record::MOST_SERVER)
            & (self.size <= Record::MOST_PROFILE)
    }

    // "State 1 or 2 needs a server name; state 0 has one exactly if pending is set."
    fn server_sound(self) -> bool
        ensures { result ≡ sound_server self }
    {
        let pending = self.pending();
        (self.server == 0) & ((self.state == 0) & !pending)
            | (0 < self.server) & ((0 < self.state) | pending)
    }

    // No roaming bit past the last network.
    fn roams(self, networks: u32) -> bool
        requires { networks ≤ 8 }
        ensures { result ≡ sound_roaming self networks }
    {
        (self.roaming as u32) < (1u32 << networks)
    }

    // The profile within the profile file.
    fn within(self, file: usize) -> bool
        ensures { result ≡ sound_profile self file }
    {
        (self.start as usize) + (self.size as usize) <= file
    }
}

// The bits that are set past the names, in fields of 128, 128 and 96 bytes: none, where all past them is zero.
fn past_names(b: &[u8; 512], r: Record, mask: &[u8]) -> usize
    requires { (r.public ≤ 128) × (r.private ≤ 128) × (r.server ≤ 96) × Mask mask.now }
    ensures { eqb result 0 ≡ past_names b.now r }
{
    run::set_past(b, Record::PUBLIC_AT, 16, r.public as usize, mask)
        | run::set_past(b, Record::PRIVATE_AT, 16, r.private as usize, mask)
        | run::set_past(b, Record::SERVER_AT, 12, r.server as usize, mask)
}

// Those that are set past the capabilities.
fn past_capabilities(b: &[u8; 512], r: Record, mask: &[u8]) -> usize
    requires { (r.mandatory ≤ 4) × (r.optional ≤ 4) × Mask mask.now }
    ensures { eqb result 0 ≡ past_capabilities b.now r }
{
    run::set_past(b, Record::MANDATORY_AT, 2, 4 * r.mandatory as usize, mask)
        | run::set_past(b, Record::OPTIONAL_AT, 2, 4 * r.optional as usize, mask)
}

// "Bytes not named are zero, and so are unused places in a field": all that is set in any of them is one number, and it is tested once.
fn rest(b: &[u8; 512], r: Record, mask: &[u8]) -> bool
    requires { (r.public ≤ 128) × (r.private ≤ 128) × (r.server ≤ 96) × (r.mandatory ≤ 4) × (r.optional ≤ 4)
        × Mask mask.now }
    ensures { result ≡ sound_rest b.now r }
{
    let blank = number::be16(b, Record::BLANK_AT) as usize;
    (blank
        | past_names(b, r, mask)
        | past_capabilities(b, r, mask)
        | run::set_bits(b, Record::REST_AT, 12))
        == 0
}

// Whether a block is sound as record k, under a header and beside a profile file of such a length. Its numbers come first: what is zero goes by them.
pub fn sound(b: &[u8; 512], k: u32, h: Header, file: usize, mask: &[u8]) -> bool
    requires { (h.networks ≤ 8) × Mask mask.now }
    ensures { result ≡ sound_record b.now k h file }
{
    let r = Record::read(b);
    r.is_record(k, h)
        & r.set_sound()
        & r.limits()
        & r.server_sound()
        & r.roams(h.networks as u32)
        & r.within(file)
        && (sum::sum_words(b, 128) == 0) & rest(b, r, mask)
}
