#![tactic(auto)]
// A whole request: its header, its AVPs, and what is missing.
pub mod features;
pub mod identities;
pub mod places;
pub mod walk;

ghost use Rattle.std.specs.Prelude.{◌≡◌, ◌≤◌, ◌<◌, ◌&&◌, not, length};
ghost use Rattle.diameter.specs.AvpAt.{part_at, present};
ghost use Rattle.reading.specs.Kinds.{is_needed, use_in, row_of};
ghost use Rattle.diameter.specs.Message.{body_of};
ghost use Rattle.requests.specs.Request.{dialect_of, spoken, spoken_sh, header_fault_by, first_other};
ghost use Rattle.requests.specs.Request.{missing, complete, read_by, read_in, read_sh, session_of};
ghost use Rattle.reading.specs.Places.{seen_of};
ghost use Rattle.requests.specs.Found.{judged_of, Headed, Missed};
ghost use Rattle.requests.specs.Judged.{fine};

use diameter::{codes, message};
use octets::number;
use reading::{Dialect, Terms, Verdict, base, kinds};

// The dialect of a request: its command, and the terms of the call.
pub fn dialect(req: &[u8], terms: Terms) -> Dialect
    requires { 20 ≤ length req.now }
    ensures { result ≡ dialect_of terms req.now }
{
    Dialect {
        command: number::be24(req, message::COMMAND_AT),
        terms,
    }
}

// Whether Cx has the command; whether Sh has it.
fn spoken(d: Dialect) -> bool
    ensures { result ≡ spoken d }
{
    let terms = d.terms;
    (terms.application == codes::CX) & (reading::UAR <= d.command) & (d.command <= reading::MAR)
}

fn spoken_sh(d: Dialect) -> bool
    ensures { result ≡ spoken_sh d }
{
    let terms = d.terms;
    (terms.application == codes::SH) & (d.command == reading::UDR)
}

// The header's first fault, by whether the application has the command.
fn header(req: &[u8], d: Dialect, has: bool) -> Result<(), Verdict>
    requires { 20 ≤ length req.now }
    ensures { Headed result (header_fault_by has d req.now) }
{
    let terms = d.terms;
    if req[message::VERSION_AT] != message::VERSION {
        return Err(Verdict::of(base::UNSUPPORTED_VERSION));
    }
    if req[message::FLAGS_AT] / message::E_BIT % 2 == 1 {
        return Err(Verdict::of(base::INVALID_HDR_BITS));
    }
    if !has {
        return Err(Verdict::of(base::COMMAND_UNSUPPORTED));
    }
    if number::be32(req, message::APPLICATION_AT) != terms.application {
        return Err(Verdict::of(base::APPLICATION_UNSUPPORTED));
    }
    Ok(())
}

// (b) Whether the first AVP is another than Session-Id.
fn first_other(req: &[u8]) -> bool
    ensures { result ≡ first_other (body_of req.now) }
{
    let Ok(a) = diameter::read_avp(req, message::BODY) else {
        return false;
    };
    kinds::kind_of(req, a) != kinds::SESSION_ID
}

// Whether a kind is needed and has no AVP at its place.
fn lacks(s: &[u8], d: Dialect, k: usize, place: usize) -> bool
    ensures { result ≡ (is_needed (use_in d (row_of k)) && not (present (part_at s.now place))) }
{
    kinds::needed(kinds::use_in(d, kinds::row_of(k))) & !diameter::present_at(s, place)
}

// The first kind that the dialect needs and that did not come.
fn missing(s: &[u8], d: Dialect, places: [usize; kinds::KINDS]) -> Option<usize>
    ensures { Missed result (missing d (seen_of s.now places)) }
{
    for k in 1..kinds::KINDS {
        if lacks(s, d, k, places[k]) {
            return Some(k);
        }
    }
    None
}

// "After the walk, the first missing AVP"
fn complete(s: &[u8], d: Dialect, places: [usize; kinds::KINDS]) -> Result<(), Verdict>
    ensures { judged_of s.now places result ≡ complete d (fine (seen_of s.now places)) }
{
    match missing(s, d, places) {
        Some(k) => Err(Verdict::lacking(k)),
        None => Ok(()),
    }
}

// The request read in a dialect, by whether the application has the command: the first fault, or its AVPs, whose places are left in what is lent. For each
// kind's number that is the place of its last AVP, the message's length where none came.
fn read_by(
    req: &[u8],
    d: Dialect,
    has: bool,
    places: &mut [usize; kinds::KINDS],
) -> Result<(), Verdict>
    requires { 20 ≤ length req.now }
    ensures { judged_of req.now places.new result ≡ read_by (header_fault_by has d req.now) d req.now }
{
    header(req, d, has)?;
    if first_other(req) {
        return Err(Verdict::lacking(kinds::SESSION_ID));
    }
    walk::walk_message(req, d, places)?;
    complete(req, d, *places)
}

// The same at the Cx server, and at the Sh server.
pub fn read_in(req: &[u8], d: Dialect, places: &mut [usize; kinds::KINDS]) -> Result<(), Verdict>
    requires { 20 ≤ length req.now }
    ensures { judged_of req.now places.new result ≡ read_in d req.now }
{
    read_by(req, d, spoken(d), places)
}

pub fn read_sh(req: &[u8], d: Dialect, places: &mut [usize; kinds::KINDS]) -> Result<(), Verdict>
    requires { 20 ≤ length req.now }
    ensures { judged_of req.now places.new result ≡ read_sh d req.now }
{
    read_by(req, d, spoken_sh(d), places)
}

// Session-Id for the answer: "if it is the first AVP and passes (a) to (c)", else nothing.
pub fn session(req: &[u8]) -> &[u8]
    ensures { (result.now ≡ session_of (body_of req.now)) × (length result.now ≤ length req.now) }
{
    let Ok(a) = diameter::read_avp(req, message::BODY) else {
        return &req[..0];
    };
    if (kinds::kind_of(req, a) == kinds::SESSION_ID) & (a.flags % diameter::P_FLAG == 0) {
        return diameter::avp_part(req, a);
    }
    &req[..0]
}
