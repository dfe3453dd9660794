#![tactic(auto)]
// AVPs written into the part of a buffer that starts at the current length.
pub mod group;

ghost use Rattle.std.specs.Prelude.{◌≡◌, ◌++◌, ◌+◌, ◌*◌, ◌/◌, ◌≤◌, length, ltb};
ghost use Rattle.octets.specs.Run.{Wrote};
ghost use Rattle.pen.specs.Bytes.{word_bytes, head_bytes, vendor_head, copied, copied_size, avp_bytes, avp_size, vendor_bytes, vendor_size};
ghost use Rattle.pen.specs.Bytes.{number_bytes, vendor_number, if_there};

use diameter::codes;
use octets::run;

// "Own AVPs have flags 0x40, or 0xC0 with vendor 10415"
pub const FLAGS: u8 = 64;

pub const VENDOR_FLAGS: u8 = 192;

// "with flags 0x80 on 628, 629, 630"
pub const PLAIN_FLAGS: u8 = 128;

fn put_word(out: &mut [u8], n: u32)
    requires { 4 ≤ length out.old }
    ensures { Wrote (word_bytes n) out.old out.new 4 }
{
    out[..4].copy_from_slice(&n.to_be_bytes());
}

// A header without V. The length is its last three bytes.
pub fn put_head(out: &mut [u8], code: u32, flags: u8, len: usize)
    requires { 8 ≤ length out.old }
    ensures { Wrote (head_bytes code flags len) out.old out.new 8 }
{
    put_word(out, code);
    out[4] = flags;
    out[5..8].copy_from_slice(&len.to_be_bytes()[5..]);
}

// A header with V and vendor 10415, with M or without.
fn put_long_head(out: &mut [u8], code: u32, flags: u8, len: usize)
    requires { 12 ≤ length out.old }
    ensures { Wrote (head_bytes code flags len ++ word_bytes 10415) out.old out.new 12 }
{
    put_head(out, code, flags, len);
    put_word(&mut out[8..], codes::VENDOR);
}

pub fn put_vendor_head(out: &mut [u8], code: u32, len: usize)
    requires { 12 ≤ length out.old }
    ensures { Wrote (vendor_head code len) out.old out.new 12 }
{
    put_long_head(out, code, VENDOR_FLAGS, len);
}

// A copied AVP, or an AVP's data: zero padding follows.
pub fn put_copy(out: &mut [u8], src: &[u8]) -> usize
    requires { copied_size (length src.now) ≤ length out.old }
    ensures { (result ≡ copied_size (length src.now)) × Wrote (copied src.now) out.old out.new result }
{
    let n = src.len();
    let padded = (n + 3) / 4 * 4;
    run::copy(out, src);
    out[n..padded].fill(0);
    padded
}

// An AVP with its data; the length leaves the padding out.
pub fn put_avp(out: &mut [u8], code: u32, src: &[u8]) -> usize
    requires { avp_size (length src.now) ≤ length out.old }
    ensures { (result ≡ avp_size (length src.now)) × Wrote (avp_bytes code src.now) out.old out.new result }
{
    put_head(out, code, FLAGS, 8 + src.len());
    8 + put_copy(&mut out[8..], src)
}

pub fn put_vendor_avp(out: &mut [u8], code: u32, src: &[u8]) -> usize
    requires { vendor_size (length src.now) ≤ length out.old }
    ensures { (result ≡ vendor_size (length src.now)) × Wrote (vendor_bytes code src.now) out.old out.new result }
{
    put_vendor_head(out, code, 12 + src.len());
    12 + put_copy(&mut out[12..], src)
}

pub fn put_number(out: &mut [u8], code: u32, n: u32) -> usize
    requires { 12 ≤ length out.old }
    ensures { (result ≡ 12) × Wrote (number_bytes code n) out.old out.new result }
{
    put_head(out, code, FLAGS, 12);
    put_word(&mut out[8..], n);
    12
}

// A number of vendor 10415, with M or without.
fn put_long_number(out: &mut [u8], code: u32, flags: u8, n: u32) -> usize
    requires { 16 ≤ length out.old }
    ensures { (result ≡ 16) × Wrote (head_bytes code flags 16 ++ word_bytes 10415 ++ word_bytes n) out.old out.new result }
{
    put_long_head(out, code, flags, 16);
    put_word(&mut out[12..], n);
    16
}

pub fn put_vendor_number(out: &mut [u8], code: u32, n: u32) -> usize
    requires { 16 ≤ length out.old }
    ensures { (result ≡ 16) × Wrote (vendor_number code n) out.old out.new result }
{
    put_long_number(out, code, VENDOR_FLAGS, n)
}

// An AVP, or nothing where there are no data.
pub fn put_avp_if(out: &mut [u8], code: u32, src: &[u8]) -> usize
    requires { length (if_there (ltb 0 (length src.now)) (avp_bytes code src.now)) ≤ length out.old }
    ensures { (result ≤ length out.old) × (result ≤ avp_size (length src.now))
        × Wrote (if_there (ltb 0 (length src.now)) (avp_bytes code src.now)) out.old out.new result }
{
    if src.is_empty() {
        return 0;
    }
    put_avp(out, code, src)
}

pub fn put_vendor_if(out: &mut [u8], code: u32, src: &[u8]) -> usize
    requires { length (if_there (ltb 0 (length src.now)) (vendor_bytes code src.now)) ≤ length out.old }
    ensures { (result ≤ length out.old) × (result ≤ vendor_size (length src.now))
        × Wrote (if_there (ltb 0 (length src.now)) (vendor_bytes code src.now)) out.old out.new result }
{
    if src.is_empty() {
        return 0;
    }
    put_vendor_avp(out, code, src)
}
