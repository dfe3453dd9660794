#![tactic(auto)]
// Failed-AVP: the faulty AVP of a request, its header alone, or an example of one that is missing.
ghost use Rattle.std.specs.Prelude.{◌≡◌, ◌+◌, ◌*◌, ◌≤◌, ◌<◌, [], length, take, drop, MatchOption};
ghost use Rattle.octets.specs.Run.{Wrote};
ghost use Rattle.diameter.specs.Avp.{avp_len};
ghost use Rattle.pen.specs.Groups.{failed, failed_size};
ghost use Rattle.failed.specs.Failing.{head_part, alone, failed_of, is_four, example_size, sample, example};

use diameter::codes;
use octets::number;
use pen::group;
use reading::{Content, base, kinds};

// The length in the header of the AVP at a place, bytes past the end taken as 0.
fn length_at(s: &[u8], at: usize) -> usize
    requires { at < length s.now }
    ensures { (result ≡ avp_len (drop at s.now)) × (result < 16777216) }
{
    let a = octets::wide(octets::byte_or_zero(s, at + 5));
    let b = octets::wide(octets::byte_or_zero(s, at + 6));
    let c = octets::wide(octets::byte_or_zero(s, at + 7));
    a * 65536 + b * 256 + c
}

// The AVP at a place without its padding, cut at the end.
fn whole(s: &[u8], at: usize) -> &[u8]
    ensures { result.now ≡ take (avp_len (drop at s.now)) (drop at s.now) }
{
    if s.len() <= at {
        return &[];
    }
    let n = length_at(s, at);
    let to = (at + n).min(s.len());
    &s[at..to]
}

// The header of the AVP at a place, unless it is cut off.
fn header(s: &[u8], at: usize) -> Option<&[u8]>
    ensures { MatchOption result (head_part (drop at s.now) ≡ [])
        (λ h. (h.now ≡ head_part (drop at s.now)) × (8 ≤ length h.now) × (length h.now ≤ 12)) }
{
    if s.len() <= at {
        return None;
    }
    let head = diameter::head_size(octets::byte_or_zero(s, at + 4));
    if s.len() - at < head {
        return None;
    }
    Some(&s[at..at + head])
}

// Failed-AVP with the header alone of the AVP at a place, whose length is set to its own.
fn put_alone(out: &mut [u8], req: &[u8], at: usize) -> usize
    requires { failed_size (length (head_part (drop at req.now))) ≤ length out.old }
    ensures { Wrote (failed (alone (head_part (drop at req.now)))) out.old out.new result }
{
    match header(req, at) {
        Some(h) => {
            let n = group::put_failed(out, h);
            number::put_be24(out, 13, h.len());
            n
        }
        None => group::put_failed(out, &[]),
    }
}

// Failed-AVP with the faulty AVP at a place, or for B5014 its header.
pub fn put_faulty(out: &mut [u8], req: &[u8], at: usize, n: u32) -> usize
    requires { length (failed (failed_of n (drop at req.now))) ≤ length out.old }
    ensures { Wrote (failed (failed_of n (drop at req.now))) out.old out.new result }
{
    if n == base::INVALID_AVP_LENGTH {
        return put_alone(out, req, at);
    }
    group::put_failed(out, whole(req, at))
}

// "277, 623, 614 and 624 are the 4-byte kinds"; "607, a 4-byte kind"
fn is_four(c: Content) -> bool
    ensures { result ≡ is_four c }
{
    matches!(c, Content::Number(_, _))
}

// How many bytes of data an example has.
fn example_size(four: bool) -> usize
    ensures { (result ≡ example_size four) × (result ≤ 4) }
{
    if four { 4 } else { 0 }
}

// An example of a kind.
fn put_sample(out: &mut [u8], code: u32, vendor: u32, four: bool) -> usize
    requires { length (sample code vendor four) ≤ length out.old }
    ensures { (result ≤ 16) × Wrote (sample code vendor four) out.old out.new result }
{
    let zeros = [0u8; 4];
    let n = example_size(four);
    if vendor == 0 {
        return pen::put_avp(out, code, &zeros[..n]);
    }
    pen::put_vendor_avp(out, code, &zeros[..n])
}

// Failed-AVP with an example of a kind that is missing: the example first, since its length stands in the header.
pub fn put_example(out: &mut [u8], k: usize) -> usize
    requires { length (failed (example k)) ≤ length out.old }
    ensures { Wrote (failed (example k)) out.old out.new result }
{
    let row = kinds::row_of(k);
    let four = is_four(row.content);
    let n = 8 + put_sample(&mut out[8..], row.code, row.vendor, four);
    pen::put_head(out, codes::FAILED_AVP, pen::FLAGS, n);
    n
}
