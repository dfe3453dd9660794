// What depends on the decision, and how the answer ends.
ghost use Rattle.std.specs.Prelude.{◌≤◌, length};
ghost use Rattle.octets.specs.Run.{Wrote};
ghost use Rattle.table.specs.SoundTable.{SoundTable};
ghost use Rattle.vectors.specs.Sendable.{Sendable};
ghost use Rattle.answering.specs.Answer.{rest_bytes};

use choices::Given;
use reply::given;

// What depends on the decision, and the end.
pub fn put_rest(
    out: &mut [u8],
    req: &[u8],
    t: &[u8],
    file: &[u8],
    v: &[u8],
    count: usize,
    g: Given,
) -> usize
    requires { SoundTable t.now count × Sendable v.now g.sent
        × (length (rest_bytes req.now t.now file.now v.now g) ≤ length out.old) }
    ensures { (result ≤ length out.old)
        × Wrote (rest_bytes req.now t.now file.now v.now g) out.old out.new result }
{
    let a = given::put_given(out, t, file, v, count, g);
    a + envelope::last::put_end(&mut out[a..], req, g.verdict)
}
