#![tactic(auto)]
// What else is looked for in a request, over the same list of places: Session-Id, Supported-Features, Proxy-Info.
ghost use Rattle.std.specs.Prelude.{◌≡◌, ◌≤◌, ◌<◌, length, get_or};
ghost use Rattle.std.proofs.Math.Option.{none};
ghost use Rattle.octets.specs.Run.{Wrote};
ghost use Rattle.reading.specs.Places.{seen_of};
ghost use Rattle.diameter.specs.Message.{body_of};
ghost use Rattle.requests.specs.Features.{wanted_of};
ghost use Rattle.requests.specs.Request.{session_of};
ghost use Rattle.envelope.specs.End.{proxies};
ghost use Rattle.plain_looks.specs.Looks.{calls_at, asks_at, called_by, asks_by, proxy_by};

use plain_reading::Listed;
use reading::{Dialect, Terms, features, kinds};
use requests::features::Wanted;

// "Session-Id if it is the first AVP and passes (a) to (c)", else nothing.
pub fn session<'a>(l: &Listed<'a, '_>) -> &'a [u8]
    ensures { (result.now ≡ session_of (body_of l.now.req.now)) × (length result.now ≤ length l.now.req.now) }
{
    let req = l.req;
    if l.list.is_empty() {
        return &req[..0];
    }
    match l.avp(0) {
        Ok(a) => {
            if (kinds::kind_of(req, a) == kinds::SESSION_ID) & (a.flags % diameter::P_FLAG == 0) {
                diameter::avp_part(req, a)
            } else {
                &req[..0]
            }
        }
        Err(_) => &req[..0],
    }
}

// Whether the AVP of a number in the list is a Supported-Features that calls for the server's own list: the first does not pass (b).
fn calls_at(l: &Listed, d: Dialect, i: usize) -> bool
    requires { i < length l.now.list.now }
    ensures { result ≡ calls_at (seen_of l.now.req.now l.now.list.now) i }
{
    match l.avp(i) {
        Ok(a) => {
            (i != 0)
                & (kinds::kind_of(l.req, a) == kinds::SUPPORTED_FEATURES)
                & features::passes(d, l.req, a)
        }
        Err(_) => false,
    }
}

fn called(l: &Listed, d: Dialect) -> bool
    ensures { result ≡ called_by (seen_of l.now.req.now l.now.list.now) }
{
    (0..l.list.len()).any(|i| calls_at(l, d, i))
}

// Whether it is one that asks for what the server does not support.
fn asks_at(l: &Listed, set: u32, i: usize) -> bool
    requires { i < length l.now.list.now }
    ensures { result ≡ asks_at set (seen_of l.now.req.now l.now.list.now) i }
{
    match l.avp(i) {
        Ok(a) => {
            (kinds::kind_of(l.req, a) == kinds::SUPPORTED_FEATURES) & features::asks(set, l.req, a)
        }
        Err(_) => false,
    }
}

fn asks(l: &Listed, set: u32) -> bool
    ensures { result ≡ asks_by set (seen_of l.now.req.now l.now.list.now) }
{
    (0..l.list.len()).any(|i| asks_at(l, set, i))
}

// "a request with no header fault"
pub fn wanted(l: &Listed, terms: Terms) -> Wanted
    requires { 20 ≤ length l.now.req.now }
    ensures { result ≡ wanted_of terms l.now.req.now }
{
    let d = requests::dialect(l.req, terms);
    Wanted {
        listed: plain_reading::header(l.req, d).is_ok() & called(l, d),
        beyond: asks(l, terms.features),
    }
}

// The AVP of a number in the list, copied if it is a Proxy-Info.
fn put_proxy(out: &mut [u8], l: &Listed, i: usize) -> usize
    requires { (i < length l.now.list.now) × (length (proxy_by (get_or (seen_of l.now.req.now l.now.list.now) i none)) ≤ length out.old) }
    ensures { (result ≤ length out.old)
        × Wrote (proxy_by (get_or (seen_of l.now.req.now l.now.list.now) i none)) out.old out.new result }
{
    let Ok(a) = l.avp(i) else {
        return 0;
    };
    if kinds::kind_of(l.req, a) == kinds::PROXY_INFO {
        return pen::put_copy(out, diameter::avp_part(l.req, a));
    }
    0
}

// "every Proxy-Info before the first length fault, other faults or not"
pub fn put_proxies(out: &mut [u8], l: &Listed) -> usize
    requires { length (proxies (body_of l.now.req.now)) ≤ length out.old }
    ensures { Wrote (proxies (body_of l.now.req.now)) out.old out.new result }
{
    let mut n = 0;
    for i in 0..l.list.len() {
        n += put_proxy(&mut out[n..], l, i);
    }
    n
}
