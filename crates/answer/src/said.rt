// What is written of a call: the answer alone, or the refusal.
ghost use Rattle.std.specs.Prelude.{◌≤◌, length};
ghost use Rattle.requests.specs.Request.{under_cx};
ghost use Rattle.calling.specs.Lent.{lent};
ghost use Rattle.answer.specs.Said.{SaidFits, Said, SaidTo};

use ndushavire::word;

// An answer stands at the front of out already; a refusal is written there. Number 0 is an answer in the word of the C interface.
fn put_said(out: &mut [u8], w: u64) -> usize
    requires { (30 ≤ length out.old) × SaidFits w (length out.old) }
    ensures { (result ≤ length out.new) × Said w out.old out.new result }
{
    let number = word::number_in(w);
    if number == 0 {
        return word::value_in(w) as usize;
    }
    lines::put_words(out, b"refused ", number as u64, b"\n")
}

// The program's peer follows RFC 3588, and no feature is supported.
const PEER: u32 = 3588;

const FEATURES: u32 = 0;

// What is said to a request, at the front of out.
pub fn answer_to(out: &mut [u8], req: &[u8], t: &mut [u8], file: &[u8], v: &mut [u8]) -> usize
    requires { 30 ≤ length out.old }
    ensures { (result ≤ length out.new)
        × SaidTo (lent req.now t.old file.now v.old out.old (under_cx 3588 0)) out.new result }
{
    let w = ndushavire::ndushavire_decide(req, t, file, v, out, PEER, FEATURES);
    put_said(out, w)
}
