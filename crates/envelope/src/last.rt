// How every answer ends: Failed-AVP, and every Proxy-Info before the first length fault.
ghost use Rattle.std.specs.Prelude.{◌+◌, ◌≤◌, length};
ghost use Rattle.octets.specs.Run.{Wrote};
ghost use Rattle.diameter.specs.Reader.{own_of, Here};
ghost use Rattle.diameter.specs.Message.{body_of};
ghost use Rattle.failed.specs.Failing.{failed_by};
ghost use Rattle.envelope.specs.End.{failed_part, proxy, proxies, end_bytes};

use diameter::{Avp, message};
use reading::{Verdict, kinds};

// Failed-AVP, where there is one.
pub fn put_failed(out: &mut [u8], req: &[u8], v: Verdict) -> usize
    requires { length (failed_part (failed_by req.now v)) ≤ length out.old }
    ensures { Wrote (failed_part (failed_by req.now v)) out.old out.new result }
{
    let lacks = v.lacks;
    if 0 < lacks {
        return failed::put_example(out, lacks);
    }
    let place = v.place;
    if 0 < place {
        let result = v.result;
        return failed::put_faulty(out, req, place, reading::number_of(result));
    }
    0
}

// An AVP, copied if it is a Proxy-Info.
fn put_proxy(out: &mut [u8], req: &[u8], a: Avp) -> usize
    requires { Here req.now a × (length (proxy (own_of req.now a)) ≤ length out.old) }
    ensures { (result ≤ length out.old) × Wrote (proxy (own_of req.now a)) out.old out.new result }
{
    if kinds::kind_of(req, a) == kinds::PROXY_INFO {
        return pen::put_copy(out, diameter::avp_part(req, a));
    }
    0
}

// Every Proxy-Info of the request, up to the first length fault.
fn put_proxies(out: &mut [u8], req: &[u8]) -> usize
    requires { length (proxies (body_of req.now)) ≤ length out.old }
    ensures { Wrote (proxies (body_of req.now)) out.old out.new result }
{
    let mut at = message::BODY;
    let mut n = 0;
    while at < req.len() {
        let Ok(a) = diameter::read_avp(req, at) else {
            return n;
        };
        n += put_proxy(&mut out[n..], req, a);
        at = a.next;
    }
    n
}

// Failed-AVP, then the Proxy-Infos.
pub fn put_end(out: &mut [u8], req: &[u8], v: Verdict) -> usize
    requires { length (failed_part (failed_by req.now v)) + length (proxies (body_of req.now)) ≤ length out.old }
    ensures { (result ≤ length out.old) × Wrote (end_bytes req.now v) out.old out.new result }
{
    let a = put_failed(out, req, v);
    a + put_proxies(&mut out[a..], req)
}
