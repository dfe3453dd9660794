#![tactic(auto)]
// RFC 3588: AVPs read, at any place of any bytes; where a message's header has its fields.
pub mod codes;
pub mod message;

ghost use Rattle.std.specs.Prelude.{◌≡◌, ◌+◌, ◌≤◌, ◌<◌, length, drop};
ghost use Rattle.diameter.specs.Avp.{padded, head_of, avp_code, vendor_of, data_of, value_of};
ghost use Rattle.diameter.specs.Reader.{between, read_of, begins_at, own_of, Here, Spans};
ghost use Rattle.diameter.specs.AvpAt.{part_at, present, data_at};

// The flags of an AVP; those under P are reserved.
pub const V_FLAG: u8 = 128;

pub const M_FLAG: u8 = 64;

pub const P_FLAG: u8 = 32;

// A whole AVP: the place where it begins, its length, the place of the next one, its header's length and its flags.
#[derive(Clone, Copy)]
pub struct Avp {
    pub at: usize,
    pub len: usize,
    pub next: usize,
    pub head: usize,
    pub flags: u8,
}

// The bytes of a message from a place on, up to an end.
#[derive(Clone, Copy)]
pub struct Span {
    pub from: usize,
    pub end: usize,
}

// The byte of the message at which the AVP that was read begins, whole or at fault.
pub fn begins(read: Result<Avp, usize>) -> usize
    ensures { result ≡ begins_at read }
{
    match read {
        Ok(a) => a.at,
        Err(at) => at,
    }
}

// The header's length by the flags: with V the vendor stands in it.
pub fn head_size(flags: u8) -> usize
    ensures { (result ≡ head_of flags) × (8 ≤ result) × (result ≤ 12) }
{
    if flags >= V_FLAG { 12 } else { 8 }
}

// A length with its padding.
fn pad(n: usize) -> usize
    requires { n < 16777216 }
    ensures { (result ≡ padded n) × (n ≤ result) × (result ≤ n + 3) }
{
    n.next_multiple_of(4)
}

// The AVP at a place of a message, or the fault of its length: what stands behind an end, a group's or the message's, is not looked at.
pub fn read_before(s: &[u8], at: usize, end: usize) -> Result<Avp, usize>
    requires { end ≤ length s.now }
    ensures { result ≡ read_of at (between s.now at end) }
{
    if end <= at {
        return Err(at);
    }
    let left = end - at;
    if left < 8 {
        return Err(at);
    }
    let flags = s[at + 4];
    let head = head_size(flags);
    if left < head {
        return Err(at);
    }
    let size = octets::number::be24(s, at + 5);
    if size < head {
        return Err(at);
    }
    if left < size {
        return Err(at);
    }
    let whole = pad(size);
    Ok(Avp {
        at,
        len: size,
        next: at + whole,
        head,
        flags,
    })
}

// The AVP at a place, up to the message's end.
pub fn read_avp(s: &[u8], at: usize) -> Result<Avp, usize>
    ensures { result ≡ read_of at (drop at s.now) }
{
    read_before(s, at, s.len())
}

// Whether a whole AVP stands at a place.
pub fn present_at(s: &[u8], at: usize) -> bool
    ensures { result ≡ present (part_at s.now at) }
{
    read_avp(s, at).is_ok()
}

// An AVP's code.
pub fn code_of(s: &[u8], a: Avp) -> u32
    requires { Here s.now a }
    ensures { result ≡ avp_code (own_of s.now a) }
{
    octets::number::be32(s, a.at)
}

// Its vendor, 0 without V: the definition `vendor_of` says so.
pub fn vendor_of(s: &[u8], a: Avp) -> u32
    requires { Here s.now a }
    ensures { result ≡ vendor_of (own_of s.now a) }
{
    if a.head == 12 {
        return octets::number::be32(s, a.at + 8);
    }
    0
}

// The number that it holds, 0 where it has not 4 bytes of data: the definition `value_of` says so.
pub fn value_of(s: &[u8], a: Avp) -> u32
    requires { Here s.now a }
    ensures { result ≡ value_of (own_of s.now a) }
{
    if a.len == a.head + 4 {
        return octets::number::be32(s, a.at + a.head);
    }
    0
}

// Its own bytes, without its padding.
pub fn avp_part(s: &[u8], a: Avp) -> &[u8]
    requires { Here s.now a }
    ensures { (result.now ≡ own_of s.now a) × (length result.now ≤ length s.now) }
{
    &s[a.at..a.at + a.len]
}

// Where its data stand.
pub fn span_of(s: &[u8], a: Avp) -> Span
    requires { Here s.now a }
    ensures { Spans s.now (data_of (own_of s.now a)) result }
{
    Span {
        from: a.at + a.head,
        end: a.at + a.len,
    }
}

// The same where nothing is known of the place, read up to an end: no bytes where no whole AVP stands.
pub fn span_at(s: &[u8], at: usize, end: usize) -> Span
    requires { end ≤ length s.now }
    ensures { Spans s.now (data_at (between s.now at end) 0) result }
{
    let Ok(a) = read_before(s, at, end) else {
        return Span { from: 0, end: 0 };
    };
    span_of(s, a)
}

// The bytes there.
pub fn part(s: &[u8], span: Span) -> &[u8]
    requires { (span.from ≤ span.end) × (span.end ≤ length s.now) }
    ensures { (result.now ≡ between s.now span.from span.end) × (length result.now ≤ length s.now) }
{
    &s[span.from..span.end]
}

// The data of the AVP at a place: empty where no whole AVP stands.
pub fn data_at(s: &[u8], at: usize) -> &[u8]
    ensures { (result.now ≡ data_at s.now at) × (length result.now ≤ length s.now) }
{
    part(s, span_at(s, at, s.len()))
}
