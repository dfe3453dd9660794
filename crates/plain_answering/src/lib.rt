#![tactic(auto)]
// "The answer", in document 01's order. What it takes of the request is looked for in the list of places.
ghost use Rattle.std.specs.Prelude.{◌≡◌, ◌+◌, ◌≤◌, length};
ghost use Rattle.octets.specs.Run.{Wrote};
ghost use Rattle.diameter.specs.Message.{body_of};
ghost use Rattle.table.specs.SoundTable.{SoundTable};
ghost use Rattle.vectors.specs.Sendable.{Sendable};
ghost use Rattle.requests.specs.Features.{wanted_of};
ghost use Rattle.requests.specs.Request.{session_of};
ghost use Rattle.failed.specs.Failing.{failed_by};
ghost use Rattle.envelope.specs.Front.{front_bytes};
ghost use Rattle.envelope.specs.End.{failed_part, proxies, end_bytes};
ghost use Rattle.reply.specs.Pieces.{top_bytes};
ghost use Rattle.answering.specs.Answer.{rest_bytes, body_bytes, answer_bytes};

use answering::Ground;
use choices::Given;
use envelope::{front, header, last};
use plain_looks::{put_proxies, session};
use plain_reading::Listed;
use reading::{Outcome, Terms, Verdict};
use reply::given;

// What an answer carries: what the decision stands on, and what it gives.
#[derive(Clone, Copy)]
pub struct Carried {
    pub ground: Ground,
    pub given: Given,
}

// "Then Session-Id if it is the first AVP and passes (a) to (c); 260 (266, 258); Result-Code 268 or Experimental-Result 297 (266, 298); 277 of 1"
fn put_front(out: &mut [u8], l: &Listed, terms: Terms, o: Outcome) -> usize
    requires { length (front_bytes terms (session_of (body_of l.now.req.now)) o) ≤ length out.old }
    ensures { (result ≤ length out.old) × Wrote (front_bytes terms (session_of (body_of l.now.req.now)) o) out.old
        out.new result }
{
    front::put_start(out, session(l), terms, o)
}

// ".. 264; 296", and the own list "right after 296"
fn put_top(out: &mut [u8], l: &Listed, t: &[u8], ground: Ground, o: Outcome) -> usize
    requires { SoundTable t.now ground.count × (ground.wanted ≡ wanted_of ground.dialect.terms l.now.req.now)
        × (length (top_bytes ground.dialect.terms l.now.req.now t.now o) ≤ length out.old) }
    ensures { (result ≤ length out.old)
        × Wrote (top_bytes ground.dialect.terms l.now.req.now t.now o) out.old out.new result }
{
    let terms = ground.dialect.terms;
    let a = put_front(out, l, terms, o);
    a + reply::front::put_server(
        &mut out[a..],
        l.req,
        t,
        ground.count,
        terms,
        ground.wanted.listed,
    )
}

// "Failed-AVP 279; every Proxy-Info before the first length fault, other faults or not"
fn put_end(out: &mut [u8], l: &Listed, v: Verdict) -> usize
    requires { length (failed_part (failed_by l.now.req.now v)) + length (proxies (body_of l.now.req.now)) ≤ length out.old }
    ensures { (result ≤ length out.old) × Wrote (end_bytes l.now.req.now v) out.old out.new result }
{
    let a = last::put_failed(out, l.req, v);
    a + put_proxies(&mut out[a..], l)
}

// "User-Name ..; Server-Name ..; Server-Capabilities 603 ..; User-Data 606 ..", and the end.
fn put_rest(out: &mut [u8], l: &Listed, t: &[u8], file: &[u8], v: &[u8], c: Carried) -> usize
    requires { SoundTable t.now c.ground.count × Sendable v.now c.given.sent
        × (length (rest_bytes l.now.req.now t.now file.now v.now c.given) ≤ length out.old) }
    ensures { (result ≤ length out.old)
        × Wrote (rest_bytes l.now.req.now t.now file.now v.now c.given) out.old out.new result }
{
    let a = given::put_given(out, t, file, v, c.ground.count, c.given);
    a + put_end(&mut out[a..], l, c.given.verdict)
}

// All after the header.
fn put_body(out: &mut [u8], l: &Listed, t: &[u8], file: &[u8], v: &[u8], c: Carried) -> usize
    requires { SoundTable t.now c.ground.count
        × (c.ground.wanted ≡ wanted_of c.ground.dialect.terms l.now.req.now) × Sendable v.now c.given.sent
        × (length (body_bytes c.ground.dialect.terms l.now.req.now t.now file.now v.now c.given) ≤ length out.old) }
    ensures { (result ≤ length out.old)
        × Wrote (body_bytes c.ground.dialect.terms l.now.req.now t.now file.now v.now c.given)
        out.old out.new result }
{
    let a = put_top(out, l, t, c.ground, c.given.verdict.result);
    a + put_rest(&mut out[a..], l, t, file, v, c)
}

// "Header: version 1, flags P as received and E exactly for 3xxx, no others, length its own, the rest as received." It is written last, since its
// length is known then.
pub fn answer(out: &mut [u8], l: &Listed, t: &[u8], file: &[u8], v: &[u8], c: Carried) -> usize
    requires { (20 ≤ length l.now.req.now) × SoundTable t.now c.ground.count
        × (c.ground.wanted ≡ wanted_of c.ground.dialect.terms l.now.req.now) × Sendable v.now c.given.sent
        × (length (answer_bytes c.ground.dialect.terms l.now.req.now t.now file.now v.now c.given) ≤ 36864) × (36864 ≤ length out.old) }
    ensures { (result ≤ 36864)
        × Wrote (answer_bytes c.ground.dialect.terms l.now.req.now t.now file.now v.now c.given)
        out.old out.new result }
{
    let n = 20 + put_body(&mut out[20..], l, t, file, v, c);
    header::put_header(out, l.req, c.given.verdict.result, n);
    n
}
