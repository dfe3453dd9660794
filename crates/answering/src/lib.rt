#![tactic(auto)]
// The whole answer: header, what every answer has, what a decision gives, the end.
pub mod last;

ghost use Rattle.std.specs.Prelude.{◌≡◌, ◌+◌, ◌≤◌, length};
ghost use Rattle.octets.specs.Run.{Wrote};
ghost use Rattle.table.specs.SoundTable.{SoundTable};
ghost use Rattle.vectors.specs.Sendable.{Sendable};
ghost use Rattle.requests.specs.Features.{wanted_of};
ghost use Rattle.answering.specs.Answer.{body_bytes, answer_bytes};

use choices::Given;
use envelope::header;
use reading::Dialect;
use reply::front;
use requests::features::Wanted;

// What a decision stands on: the dialect of the request, what its Supported-Features want, and how many records the table has.
#[derive(Clone, Copy)]
pub struct Ground {
    pub dialect: Dialect,
    pub wanted: Wanted,
    pub count: usize,
}

// All after the header.
fn put_body(
    out: &mut [u8],
    req: &[u8],
    t: &[u8],
    file: &[u8],
    v: &[u8],
    ground: Ground,
    g: Given,
) -> usize
    requires { SoundTable t.now ground.count × (ground.wanted ≡ wanted_of ground.dialect.terms req.now) × Sendable v.now g.sent
        × (length (body_bytes ground.dialect.terms req.now t.now file.now v.now g) ≤ length out.old) }
    ensures { (result ≤ length out.old)
        × Wrote (body_bytes ground.dialect.terms req.now t.now file.now v.now g) out.old
        out.new result }
{
    let a = front::put_top(
        out,
        req,
        t,
        ground.count,
        ground.dialect.terms,
        g.verdict.result,
        ground.wanted.listed,
    );
    a + last::put_rest(&mut out[a..], req, t, file, v, ground.count, g)
}

// The answer to a request, over a sound table, with what a decision gives it to carry. It is written where it stays, the body first,
// since its length stands in the header.
pub fn answer(
    out: &mut [u8],
    req: &[u8],
    t: &[u8],
    file: &[u8],
    v: &[u8],
    ground: Ground,
    g: Given,
) -> usize
    requires { (20 ≤ length req.now) × SoundTable t.now ground.count × (ground.wanted ≡ wanted_of ground.dialect.terms req.now)
        × Sendable v.now g.sent
        × (length (answer_bytes ground.dialect.terms req.now t.now file.now v.now g) ≤ 36864) × (36864 ≤ length out.old) }
    ensures { (result ≤ 36864)
        × Wrote (answer_bytes ground.dialect.terms req.now t.now file.now v.now g) out.old
        out.new result }
{
    let n = 20 + put_body(&mut out[20..], req, t, file, v, ground, g);
    header::put_header(out, req, g.verdict.result, n);
    n
}
