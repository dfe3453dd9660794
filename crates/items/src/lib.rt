#![tactic(auto)]
// The items of an answer to an authentication request: one SIP-Auth-Data-Item for each vector that is sent.
ghost use Rattle.std.specs.Prelude.{◌≡◌, ◌++◌, ◌+◌, ◌≤◌, length};
ghost use Rattle.octets.specs.Run.{Wrote};
ghost use Rattle.vectors.specs.Sendable.{Sendable};
ghost use Rattle.vectors.specs.VectorBlock.{vector_of};
ghost use Rattle.items.specs.Items.{challenge_bytes, key_bytes, key_size, item_bytes, item_size, items_bytes, numbered_bytes, sent_bytes};

use blocks::BLOCK;
use diameter::codes;
use vectors::choice::Sent;
use vectors::vector;

// 613, 608 and 609 of item i; the scheme is the one that is served.
fn put_challenge(out: &mut [u8], b: &[u8; BLOCK], i: u32) -> usize
    requires { 88 ≤ length out.old }
    ensures { (result ≡ 88) × Wrote (challenge_bytes i b.now) out.old out.new result }
{
    let a = pen::put_vendor_number(out, codes::SIP_ITEM_NUMBER, i);
    let c = a
        + pen::put_vendor_avp(
            &mut out[a..],
            codes::SIP_AUTHENTICATION_SCHEME,
            &vectors::SCHEME,
        );
    c + pen::put_vendor_avp(&mut out[c..], codes::SIP_AUTHENTICATE, vector::rand_autn(b))
}

// 610, 625 and 626.
fn put_keys(out: &mut [u8], b: &[u8; BLOCK]) -> usize
    requires { ((vector_of b.now).xres ≤ 16) × (key_size b.now ≤ length out.old) }
    ensures { (result ≡ key_size b.now) × Wrote (key_bytes b.now) out.old out.new result }
{
    let a = pen::put_vendor_avp(out, codes::SIP_AUTHORIZATION, vector::xres(b));
    let c = a
        + pen::put_vendor_avp(
            &mut out[a..],
            codes::CONFIDENTIALITY_KEY,
            vector::confidentiality_key(b),
        );
    c + pen::put_vendor_avp(
        &mut out[c..],
        codes::INTEGRITY_KEY,
        vector::integrity_key(b),
    )
}

// The members of item i.
fn put_members(out: &mut [u8], b: &[u8; BLOCK], i: u32) -> usize
    requires { ((vector_of b.now).xres ≤ 16) × (88 + key_size b.now ≤ length out.old) }
    ensures { (result ≡ 88 + key_size b.now)
        × Wrote (challenge_bytes i b.now ++ key_bytes b.now) out.old out.new result }
{
    let a = put_challenge(out, b, i);
    a + put_keys(&mut out[a..], b)
}

// Item i: its members first, since their length stands in its header.
fn put_item(out: &mut [u8], b: &[u8; BLOCK], i: u32) -> usize
    requires { ((vector_of b.now).xres ≤ 16) × (item_size b.now ≤ length out.old) }
    ensures { (result ≤ length out.old) × Wrote (item_bytes i b.now) out.old out.new result }
{
    let n = 12 + put_members(&mut out[12..], b, i);
    pen::put_vendor_head(out, codes::SIP_AUTH_DATA_ITEM, n);
    n
}

// One item for each block that is sent, numbered from 1.
fn put_items(out: &mut [u8], v: &[u8], sent: Sent) -> usize
    requires { Sendable v.now sent × (length (items_bytes v.now sent.blocks sent.count) ≤ length out.old) }
    ensures { Wrote (items_bytes v.now sent.blocks sent.count) out.old out.new result }
{
    let mut at = 0;
    for (i, k) in sent.blocks[..sent.count].iter().enumerate() {
        at += put_item(
            &mut out[at..],
            blocks::block(v, *k as usize),
            (i + 1) as u32,
        );
    }
    at
}

// The number sent, and the items.
fn put_numbered(out: &mut [u8], v: &[u8], sent: Sent) -> usize
    requires { Sendable v.now sent × (16 + length (items_bytes v.now sent.blocks sent.count) ≤ length out.old) }
    ensures { Wrote (numbered_bytes v.now sent) out.old out.new result }
{
    let a = pen::put_vendor_number(out, codes::SIP_NUMBER_AUTH_ITEMS, sent.count as u32);
    a + put_items(&mut out[a..], v, sent)
}

// Nothing where none is sent.
pub fn put_sent(out: &mut [u8], v: &[u8], sent: Sent) -> usize
    requires { Sendable v.now sent × (length (sent_bytes v.now sent) ≤ length out.old) }
    ensures { (result ≤ length out.old) × Wrote (sent_bytes v.now sent) out.old out.new result }
{
    if 0 < sent.count {
        return put_numbered(out, v, sent);
    }
    0
}
