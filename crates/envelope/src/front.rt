// How every answer begins: Session-Id, 260, the result, 277, 264, 296.
ghost use Rattle.std.specs.Prelude.{◌≡◌, ◌+◌, ◌≤◌, length};
ghost use Rattle.octets.specs.Run.{Wrote};
ghost use Rattle.blocks.specs.Blocks.{block_of};
ghost use Rattle.pen.specs.Bytes.{copied_size};
ghost use Rattle.diameter.specs.Message.{body_of};
ghost use Rattle.requests.specs.Request.{session_of};
ghost use Rattle.table.specs.SoundTable.{SoundTable};
ghost use Rattle.envelope.specs.Front.{result_bytes, front_bytes, origin_bytes};

use diameter::codes;
use pen::group;
use reading::{Outcome, Terms};

// Result-Code or Experimental-Result.
fn put_result(out: &mut [u8], o: Outcome) -> usize
    requires { length (result_bytes o) ≤ length out.old }
    ensures { (result ≡ length (result_bytes o)) × Wrote (result_bytes o) out.old out.new result }
{
    match o {
        Outcome::Base(n) => group::put_base(out, n),
        Outcome::Experimental(n) => group::put_experimental(out, n),
    }
}

// A Session-Id, the application, the result, and 277 of 1.
pub fn put_start(out: &mut [u8], session: &[u8], terms: Terms, o: Outcome) -> usize
    requires { copied_size (length session.now) + 32 + length (result_bytes o) + 12 ≤ length out.old }
    ensures { (result ≤ length out.old) × Wrote (front_bytes terms session.now o) out.old out.new result }
{
    let a = pen::put_copy(out, session);
    let b = a + group::put_application(&mut out[a..], terms.application);
    let c = b + put_result(&mut out[b..], o);
    c + pen::put_number(&mut out[c..], codes::AUTH_SESSION_STATE, 1)
}

// The same with the request's Session-Id.
pub fn put_front(out: &mut [u8], req: &[u8], terms: Terms, o: Outcome) -> usize
    requires { length (front_bytes terms (session_of (body_of req.now)) o) ≤ length out.old }
    ensures { (result ≤ length out.old) × Wrote (front_bytes terms (session_of (body_of req.now)) o) out.old
        out.new result }
{
    put_start(out, requests::session(req), terms, o)
}

// Origin-Host and Origin-Realm.
pub fn put_origin(out: &mut [u8], t: &[u8], count: usize) -> usize
    requires { SoundTable t.now count × (length (origin_bytes (block_of t.now 0)) ≤ length out.old) }
    ensures { (result ≤ length out.old) × Wrote (origin_bytes (block_of t.now 0)) out.old out.new result }
{
    let a = pen::put_avp(out, codes::ORIGIN_HOST, parts::host(t, count));
    a + pen::put_avp(&mut out[a..], codes::ORIGIN_REALM, parts::realm(t, count))
}
