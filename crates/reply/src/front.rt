// How every answer begins: Session-Id, 260, the result, 277, 264, 296, and the own list where it is called for.
ghost use Rattle.std.specs.Prelude.{◌++◌, ◌≡◌, ◌≤◌, length};
ghost use Rattle.octets.specs.Run.{Wrote};
ghost use Rattle.blocks.specs.Blocks.{block_of};
ghost use Rattle.requests.specs.Features.{list_called};
ghost use Rattle.table.specs.SoundTable.{SoundTable};
ghost use Rattle.envelope.specs.Front.{origin_bytes};
ghost use Rattle.reply.specs.Pieces.{list_bytes, top_bytes};

use pen::group;
use reading::{Outcome, Terms};

// Supported-Features, where the request calls for it.
fn put_list(out: &mut [u8], req: &[u8], terms: Terms, listed: bool) -> usize
    requires { (listed ≡ list_called terms req.now) × (length (list_bytes terms req.now) ≤ length out.old) }
    ensures { (result ≤ length out.old) × Wrote (list_bytes terms req.now) out.old out.new result }
{
    if listed {
        return group::put_features(out, terms.features);
    }
    0
}

// Who answers, and what the server supports.
pub fn put_server(
    out: &mut [u8],
    req: &[u8],
    t: &[u8],
    count: usize,
    terms: Terms,
    listed: bool,
) -> usize
    requires { SoundTable t.now count × (listed ≡ list_called terms req.now)
        × (length (origin_bytes (block_of t.now 0) ++ list_bytes terms req.now) ≤ length out.old) }
    ensures { (result ≤ length out.old)
        × Wrote (origin_bytes (block_of t.now 0) ++ list_bytes terms req.now) out.old out.new result }
{
    let a = envelope::front::put_origin(out, t, count);
    a + put_list(&mut out[a..], req, terms, listed)
}

// What every answer has. Whether the request calls for the own list is known by now.
pub fn put_top(
    out: &mut [u8],
    req: &[u8],
    t: &[u8],
    count: usize,
    terms: Terms,
    o: Outcome,
    listed: bool,
) -> usize
    requires { SoundTable t.now count × (listed ≡ list_called terms req.now) × (length (top_bytes terms req.now t.now o) ≤ length out.old) }
    ensures { (result ≤ length out.old) × Wrote (top_bytes terms req.now t.now o) out.old out.new result }
{
    let a = envelope::front::put_front(out, req, terms, o);
    a + put_server(&mut out[a..], req, t, count, terms, listed)
}
