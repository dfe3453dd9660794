// Rules (c) to (h) for one AVP.
ghost use Rattle.std.specs.Prelude.{ℕ, ◌≡◌, ◌<◌};
ghost use Rattle.diameter.specs.Reader.{own_of, Here};
ghost use Rattle.reading.specs.Kinds.{kinds, kind_of};
ghost use Rattle.reading.specs.Rules.{content_fault, of_unknown, of_content, of_once, rule_by, rule};
ghost use Rattle.reading.specs.Places.{seen_of};
ghost use Rattle.reading.specs.Verdicts.{Faulted};

use crate::{Content, Dialect, Ruled, Use, base, group, kinds, plain};
use diameter::Avp;

// (g), (h) The fault of what an AVP holds.
pub fn content_fault(d: Dialect, c: Content, s: &[u8], a: Avp) -> Result<(), u32>
    requires { Here s.now a }
    ensures { Faulted result (content_fault d c (own_of s.now a)) }
{
    match c {
        Content::Members(g) => group::group_fault(d, g, s, a),
        _ => plain::plain_fault(c, s, a),
    }
}

// (d) "kind (vendor, code) unknown: with M B5001, else skipped"
fn of_unknown(flags: u8) -> Ruled
    ensures { result ≡ of_unknown flags }
{
    if flags / diameter::M_FLAG % 2 == 1 {
        return Ruled::Fault(base::AVP_UNSUPPORTED);
    }
    Ruled::Skipped
}

// (g), (h)
fn of_content(fault: Result<(), u32>) -> Ruled
    ensures { (n : ℕ) → Faulted fault n → result ≡ of_content n }
{
    match fault {
        Ok(()) => Ruled::Taken,
        Err(n) => Ruled::Fault(n),
    }
}

// (f) "too often: B5009"
fn of_once(earlier: bool, fault: Result<(), u32>) -> Ruled
    ensures { (n : ℕ) → Faulted fault n → result ≡ of_once earlier n }
{
    if earlier {
        return Ruled::Fault(base::AVP_OCCURS_TOO_MANY_TIMES);
    }
    of_content(fault)
}

// What the rules say of an AVP, by its kind's use, by whether one of its kind came earlier, by its flags and by the fault of what it holds.
pub fn rule_by(u: Use, earlier: bool, flags: u8, fault: Result<(), u32>) -> Ruled
    ensures { (n : ℕ) → Faulted fault n → result ≡ rule_by u earlier flags n }
{
    if flags % diameter::P_FLAG != 0 {
        return Ruled::Fault(base::INVALID_AVP_BITS);
    }
    match u {
        Use::Unknown => of_unknown(flags),
        Use::Unnamed => Ruled::Skipped,
        Use::Needed | Use::Optional => of_once(earlier, fault),
        Use::Repeated | Use::Several => of_content(fault),
    }
}

// The same of an AVP of kind k, after those at the places of the kinds.
pub fn rule_at(s: &[u8], d: Dialect, places: [usize; kinds::KINDS], a: Avp, k: usize) -> Ruled
    requires { Here s.now a × (k ≡ kind_of (own_of s.now a)) × (k < kinds) }
    ensures { result ≡ rule d (seen_of s.now places) (own_of s.now a) }
{
    let earlier = diameter::present_at(s, places[k]);
    let row = kinds::row_of(k);
    let fault = content_fault(d, row.content, s, a);
    rule_by(kinds::use_in(d, row), earlier, a.flags, fault)
}
