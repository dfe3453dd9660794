// The answer, written where it stays: header, what every answer has, 702, the end.
ghost use Rattle.std.specs.Prelude.{◌≡◌, ◌+◌, ◌≤◌, length, IfOk};
ghost use Rattle.octets.specs.Run.{Wrote};
ghost use Rattle.table.specs.SoundTable.{SoundTable};
ghost use Rattle.sh.specs.Answer.{record_bytes, told_bytes, sh_body, sh_answer, body_room};
ghost use Rattle.sh.specs.Replies.{AmongRecords};
ghost use Rattle.sh.specs.Tell.{telling_of};

use crate::telling;
use crate::telling::Told;
use blocks::BLOCK;
use envelope::{front, header, last};
use reading::{Terms, Verdict};
use record::fields;
use record::subscriber::Record;
use user_data::References;

// 702 of a record.
fn put_record(out: &mut [u8], asked: References, b: &[u8; BLOCK]) -> usize
    requires { length (record_bytes asked b.now) ≤ length out.old }
    ensures { (result ≤ length out.old) × Wrote (record_bytes asked b.now) out.old out.new result }
{
    let record = Record::read(b);
    user_data::put_user_data(
        out,
        asked,
        record.state,
        record.pending(),
        fields::server(b),
    )
}

// 702, or nothing where no record is told of.
fn put_told(out: &mut [u8], t: &[u8], count: usize, g: Result<Told, Verdict>) -> usize
    requires { SoundTable t.now count × AmongRecords count g × (length (told_bytes t.now (telling_of g)) ≤ length out.old) }
    ensures { (result ≤ length out.old) × Wrote (told_bytes t.now (telling_of g)) out.old out.new result }
{
    match g {
        Ok(told) => {
            let k = told.block as usize;
            if k == 0 {
                return 0;
            }
            put_record(out, told.asked, blocks::block(t, k))
        }
        Err(_) => 0,
    }
}

// All after the header. No struct for the parameters: each line would take it apart again.
fn put_body(
    out: &mut [u8],
    req: &[u8],
    t: &[u8],
    count: usize,
    terms: Terms,
    g: Result<Told, Verdict>,
) -> usize
    requires { SoundTable t.now count × AmongRecords count g × (body_room terms req.now t.now (telling_of g) ≤ length out.old) }
    ensures { (result ≤ length out.old) × Wrote (sh_body terms req.now t.now (telling_of g)) out.old out.new result }
{
    let verdict = telling::verdict_of(g);
    let a = front::put_front(out, req, terms, verdict.result);
    let b = a + front::put_origin(&mut out[a..], t, count);
    let c = b + put_told(&mut out[b..], t, count, g);
    c + last::put_end(&mut out[c..], req, verdict)
}

// The whole answer, the body first, since its length stands in the header.
pub fn answer(
    out: &mut [u8],
    req: &[u8],
    t: &[u8],
    count: usize,
    terms: Terms,
    g: Result<Told, Verdict>,
) -> usize
    requires { (20 ≤ length req.now) × SoundTable t.now count × AmongRecords count g
        × (20 + body_room terms req.now t.now (telling_of g) ≤ 36864) × (36864 ≤ length out.old) }
    ensures { (result ≤ 36864) × Wrote (sh_answer terms req.now t.now (telling_of g)) out.old out.new result }
{
    let verdict = telling::verdict_of(g);
    let n = 20 + put_body(&mut out[20..], req, t, count, terms, g);
    header::put_header(out, req, verdict.result, n);
    n
}
