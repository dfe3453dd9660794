// A group is a table of members. They stand in any order, pass (a) and (c), and no others are there; behind the last one nothing but a further
// AVP would be looked at, so that its padding may be whole or cut.
ghost use Rattle.std.specs.Prelude.{◌≡◌, ◌≤◌, ◌<◌, length, get_or};
ghost use Rattle.diameter.specs.Avp.{data_of};
ghost use Rattle.diameter.specs.Reader.{between, own_of, Here};
ghost use Rattle.diameter.specs.Walk.{walk};
ghost use Rattle.reading.specs.Groups.{member, nobody, vendor_id, application_members, sole_member, feature_members, members_of};
ghost use Rattle.reading.specs.Groups.{is_of, fits, is_other, only_of, members_fitting, enough, gathers, too_often, group_fault};
ghost use Rattle.reading.specs.Verdicts.{Faulted};

use crate::{Content, Dialect, Member, RFC_6733, base, kinds, plain};
use diameter::{Avp, Span, codes};

// The groups that a request's AVPs may be: 260, 612, 628 and 700.
#[derive(Clone, Copy)]
pub enum Group {
    Application,
    AuthDataItem,
    SupportedFeatures,
    UserIdentity,
}

// A member: code, vendor (0: without V), content, and whether it may come more than once.
fn member(code: u32, vendor: u32, content: Content, many: bool) -> Member
    ensures { result ≡ member code vendor content many }
{
    Member {
        code,
        vendor,
        content,
        many,
    }
}

// "one or more Vendor-Id 266, each 10415"
fn vendor_id() -> Member
    ensures { result ≡ vendor_id }
{
    member(
        codes::VENDOR_ID,
        0,
        Content::Number(codes::VENDOR, codes::VENDOR),
        true,
    )
}

// "260 holds, in any order, one or more Vendor-Id 266, each 10415, and one Auth-Application-Id 258 of 16777216"
fn application_member(application: u32, k: usize) -> Member
    requires { k < 2 }
    ensures { result ≡ get_or (application_members application) k nobody }
{
    match k {
        0 => vendor_id(),
        _ => member(
            codes::AUTH_APPLICATION_ID,
            0,
            Content::Number(application, application),
            false,
        ),
    }
}

// "612 holds exactly one 608 and nothing else"; "the one Public-Identity that 700 must hold"
fn sole_member(code: u32) -> Member
    ensures { result ≡ get_or (sole_member code) 0 nobody }
{
    member(code, codes::VENDOR, Content::Free, false)
}

// "A 628 holds these three 4-byte members once each"
fn feature_member(k: usize) -> Member
    requires { k < 3 }
    ensures { result ≡ get_or feature_members k nobody }
{
    match k {
        0 => member(codes::VENDOR_ID, 0, kinds::NUMBER, false),
        1 => member(codes::FEATURE_LIST_ID, codes::VENDOR, kinds::NUMBER, false),
        _ => member(codes::FEATURE_LIST, codes::VENDOR, kinds::NUMBER, false),
    }
}

// The members of a group by their numbers, and how many there are: those of 260 are no constant, since one has the application that is spoken.
fn member_of(d: Dialect, g: Group, k: usize) -> Member
    requires { k < length (members_of d g) }
    ensures { result ≡ get_or (members_of d g) k nobody }
{
    match g {
        Group::Application => application_member(d.terms.application, k),
        Group::AuthDataItem => sole_member(codes::SIP_AUTHENTICATION_SCHEME),
        Group::SupportedFeatures => feature_member(k),
        Group::UserIdentity => sole_member(codes::PUBLIC_IDENTITY),
    }
}

fn size_of(d: Dialect, g: Group) -> usize
    ensures { result ≡ length (members_of d g) }
{
    match g {
        Group::Application => 2,
        Group::AuthDataItem | Group::UserIdentity => 1,
        Group::SupportedFeatures => 3,
    }
}

// Whether an AVP has such a code and vendor: "V with vendor 0" is none.
pub fn is_of(code: u32, vendor: u32, s: &[u8], a: Avp) -> bool
    requires { Here s.now a }
    ensures { result ≡ is_of code vendor (own_of s.now a) }
{
    if a.flags < diameter::V_FLAG {
        return (diameter::code_of(s, a) == code) & (vendor == 0);
    }
    (diameter::code_of(s, a) == code) & (0 < vendor) & (diameter::vendor_of(s, a) == vendor)
}

impl Member {
    // Whether an AVP is such a member.
    fn fits(self, s: &[u8], a: Avp) -> bool
        requires { Here s.now a }
        ensures { result ≡ fits self (own_of s.now a) }
    {
        (a.flags % diameter::P_FLAG == 0)
            & is_of(self.code, self.vendor, s, a)
            & plain::plain_fault(self.content, s, a).is_ok()
    }

    // How many of the AVPs in a group's span are such a member.
    fn count_of(self, s: &[u8], span: Span) -> usize
        requires { span.end ≤ length s.now }
        ensures { result ≡ members_fitting self (walk (between s.now span.from span.end)) }
    {
        let mut n = 0;
        // By place: each AVP says where the next one begins.
        let mut at = span.from;
        while at < span.end {
            let Ok(a) = diameter::read_before(s, at, span.end) else {
                return n;
            };
            if self.fits(s, a) {
                n += 1;
            }
            at = a.next;
        }
        n
    }

    // "one", or "one or more"
    fn enough(self, s: &[u8], span: Span) -> bool
        requires { span.end ≤ length s.now }
        ensures { result ≡ enough self (walk (between s.now span.from span.end)) }
    {
        let n = self.count_of(s, span);
        if self.many {
            return 1 <= n;
        }
        n == 1
    }
}

// Whether an AVP is none of a group's members.
fn is_other(d: Dialect, g: Group, s: &[u8], a: Avp) -> bool
    requires { Here s.now a }
    ensures { result ≡ is_other (members_of d g) (own_of s.now a) }
{
    for k in 0..size_of(d, g) {
        if member_of(d, g, k).fits(s, a) {
            return false;
        }
    }
    true
}

// Whether all AVPs in a group's span are whole, and each is one of its members. They are read in the message, up to the span's end.
fn only_of(d: Dialect, g: Group, s: &[u8], span: Span) -> bool
    requires { span.end ≤ length s.now }
    ensures { result ≡ only_of (members_of d g) (walk (between s.now span.from span.end)) }
{
    // By place: each AVP says where the next one begins.
    let mut at = span.from;
    while at < span.end {
        let Ok(a) = diameter::read_before(s, at, span.end) else {
            return false;
        };
        if is_other(d, g, s, a) {
            return false;
        }
        at = a.next;
    }
    true
}

// Whether an AVP's data are the members of a group.
pub fn gathers(d: Dialect, g: Group, s: &[u8], a: Avp) -> bool
    requires { Here s.now a }
    ensures { result ≡ gathers (members_of d g) (walk (data_of (own_of s.now a))) }
{
    let span = diameter::span_of(s, a);
    for k in 0..size_of(d, g) {
        if !member_of(d, g, k).enough(s, span) {
            return false;
        }
    }
    only_of(d, g, s, span)
}

// "RFC 6733, where 260 holds exactly one Vendor-Id"
fn too_often(d: Dialect, g: Group, s: &[u8], a: Avp) -> bool
    requires { Here s.now a }
    ensures { result ≡ too_often d g (walk (data_of (own_of s.now a))) }
{
    match g {
        Group::Application => {
            let span = diameter::span_of(s, a);
            (d.terms.peer == RFC_6733) & (1 < vendor_id().count_of(s, span))
        }
        Group::AuthDataItem | Group::SupportedFeatures | Group::UserIdentity => false,
    }
}

// (h) "bad content: B5004", and the newer edition's B5009 where the members are otherwise right.
pub fn group_fault(d: Dialect, g: Group, s: &[u8], a: Avp) -> Result<(), u32>
    requires { Here s.now a }
    ensures { Faulted result (group_fault d g (walk (data_of (own_of s.now a)))) }
{
    if !gathers(d, g, s, a) {
        return Err(base::INVALID_AVP_VALUE);
    }
    if too_often(d, g, s, a) {
        return Err(base::AVP_OCCURS_TOO_MANY_TIMES);
    }
    Ok(())
}
