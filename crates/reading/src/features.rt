// What one Supported-Features asks for, and whether it passes the rules.
ghost use Rattle.std.specs.Prelude.{◌≡◌, ◌≤◌, length};
ghost use Rattle.diameter.specs.Avp.{data_of};
ghost use Rattle.diameter.specs.Reader.{between, own_of, Here};
ghost use Rattle.diameter.specs.Walk.{walk};
ghost use Rattle.reading.specs.Features.{bit_outside, member_value, asks_other, asks, passes};

use crate::group::Group;
use crate::{Dialect, group};
use diameter::{Avp, Span, codes};

// The bits of a list of features, and the one list that is supported.
const BITS: u32 = 32;

const LIST: u32 = 1;

// Whether a bit is set that is not one of a set's.
fn bit_outside(wanted: u32, set: u32) -> bool
    ensures { result ≡ bit_outside wanted set }
{
    for k in 0..BITS {
        if ((wanted >> k) % 2 == 1) & ((set >> k) % 2 != 1) {
            return true;
        }
    }
    false
}

// The number that the first AVP of a code and vendor holds, in a group's span; 0 where there is none, as the definition `member_value` has it.
fn member_value(code: u32, vendor: u32, s: &[u8], span: Span) -> u32
    requires { span.end ≤ length s.now }
    ensures { result ≡ member_value code vendor (walk (between s.now span.from span.end)) }
{
    // By place: each AVP says where the next one begins.
    let mut at = span.from;
    while at < span.end {
        let Ok(a) = diameter::read_before(s, at, span.end) else {
            return 0;
        };
        if group::is_of(code, vendor, s, a) {
            return diameter::value_of(s, a);
        }
        at = a.next;
    }
    0
}

// Whether it is of another vendor or list than the set, or has a bit outside it.
fn asks_other(set: u32, s: &[u8], span: Span) -> bool
    requires { span.end ≤ length s.now }
    ensures { result ≡ asks_other set (walk (between s.now span.from span.end)) }
{
    (member_value(codes::VENDOR_ID, 0, s, span) != codes::VENDOR)
        | (member_value(codes::FEATURE_LIST_ID, codes::VENDOR, s, span) != LIST)
        | bit_outside(
            member_value(codes::FEATURE_LIST, codes::VENDOR, s, span),
            set,
        )
}

// Whether a 628 asks for what the server does not support: "With M set".
pub fn asks(set: u32, s: &[u8], a: Avp) -> bool
    requires { Here s.now a }
    ensures { result ≡ asks set (own_of s.now a) }
{
    if a.flags / diameter::M_FLAG % 2 == 1 {
        return asks_other(set, s, diameter::span_of(s, a));
    }
    false
}

// Whether a 628 passes (c) and (h), by which alone it can fail.
pub fn passes(d: Dialect, s: &[u8], a: Avp) -> bool
    requires { Here s.now a }
    ensures { result ≡ passes (own_of s.now a) }
{
    (a.flags % diameter::P_FLAG == 0) & group::gathers(d, Group::SupportedFeatures, s, a)
}
