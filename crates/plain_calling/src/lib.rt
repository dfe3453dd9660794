#![tactic(auto)]
// One call without cleverness: the refusals in order, the table and the vector file checked, every AVP's place listed, the request read, decided, answered.
ghost use Rattle.std.specs.Prelude.{◌≡◌, ◌≤◌, length, Ok};
ghost use Rattle.table.specs.Check.{check_table};
ghost use Rattle.table.specs.SoundTable.{SoundTable};
ghost use Rattle.vectors.specs.VectorFile.{check_vectors, SoundVectors};
ghost use Rattle.requests.specs.Features.{wanted_of};
ghost use Rattle.requests.specs.Request.{dialect_of, read_in};
ghost use Rattle.refusals.specs.Passed.{Passed};
ghost use Rattle.deciding.specs.Decide.{decide};
ghost use Rattle.calling.specs.Leaves.{serve_checked};
ghost use Rattle.calling.specs.Lent.{lent};
ghost use Rattle.calling.specs.Serve.{serve_table, serve};
ghost use Rattle.plain_reading.specs.Read.{read_as};
ghost use Rattle.plain_deciding.specs.Says.{Says};
ghost use Rattle.plain_calling.specs.Comes.{Comes};

use answering::Ground;
use blocks::Checked;
use plain_deciding::{Blamed, Held, Said};
use plain_reading::Listed;
use reading::{Dialect, Terms, Verdict, kinds};
use refusals::Refusal;

// The request is read by the list of its AVPs' places.
fn read(l: &Listed, d: Dialect) -> Result<[usize; kinds::KINDS], Verdict>
    requires { 20 ≤ length l.now.req.now }
    ensures { read_as l.now.req.now result ≡ read_in d l.now.req.now }
{
    l.read(d)
}

// One request over a sound table and a sound vector file.
fn answer(
    out: &mut [u8],
    l: &Listed,
    t: &mut [u8],
    file: &[u8],
    v: &mut [u8],
    ground: Ground,
) -> Said
    requires { Passed l.now.req.now out.old × SoundTable t.old ground.count × SoundVectors v.old
        × (ground.wanted ≡ wanted_of ground.dialect.terms l.now.req.now) }
    ensures { Says ground.dialect l.now.req.now t.old ground.count file.now v.old
        out.old out.new result
        × (t.new ≡ (decide ground.dialect l.now.req.now t.old ground.count v.old).table)
        × (v.new ≡ (decide ground.dialect l.now.req.now t.old ground.count v.old).vectors) }
{
    match read(l, ground.dialect) {
        Ok(found) => plain_deciding::answer_fine(out, l, t, file, v, Held { ground, found }),
        Err(fault) => plain_deciding::answer_fault(out, l, t, file, v, Blamed { ground, fault }),
    }
}

// "6, vector file unsound, at every call, after 5"
fn over_vectors(
    ground: Ground,
    l: &Listed,
    t: &mut [u8],
    file: &[u8],
    v: &mut [u8],
    out: &mut [u8],
) -> Result<Said, Refusal>
    requires { Passed l.now.req.now out.old × SoundTable t.old ground.count × (ground.dialect ≡ dialect_of ground.dialect.terms l.now.req.now)
        × (ground.wanted ≡ wanted_of ground.dialect.terms l.now.req.now) }
    ensures { Comes (serve_checked
        (lent l.now.req.now t.old file.now v.old out.old ground.dialect.terms)
        (Ok ground.count) (check_vectors v.old))
        result t.new v.new out.new }
{
    match plain_vectors::check(v) {
        Ok(_) => Ok(answer(out, l, t, file, v, ground)),
        Err(_) => Err(Refusal::UnsoundVectors),
    }
}

// "5 .. table unsound: first bad block"
fn over_table(
    table: Checked,
    terms: Terms,
    l: &Listed,
    t: &mut [u8],
    file: &[u8],
    v: &mut [u8],
    out: &mut [u8],
) -> Result<Said, Refusal>
    requires { Passed l.now.req.now out.old × (table ≡ check_table t.old (length file.now)) }
    ensures { Comes
        (serve_checked (lent l.now.req.now t.old file.now v.old out.old terms) table
        (check_vectors v.old))
        result t.new v.new out.new }
{
    let dialect = requests::dialect(l.req, terms);
    let wanted = plain_looks::wanted(l, terms);
    match table {
        Ok(count) => {
            let ground = Ground {
                dialect,
                wanted,
                count: count as usize,
            };
            over_vectors(ground, l, t, file, v, out)
        }
        Err(block) => Err(Refusal::Unsound(block)),
    }
}

// "Five refusals of the call": "Tried in this order. All leave table and buffer as they came." Then 02 [13]: "first lists every AVP's place".
fn call_table(
    req: &[u8],
    t: &mut [u8],
    file: &[u8],
    v: &mut [u8],
    out: &mut [u8],
    terms: Terms,
) -> Result<Said, Refusal>
    ensures { Comes (serve_table (lent req.now t.old file.now v.old out.old terms))
        result t.new v.new out.new }
{
    refusals::early(terms, req, out)?;
    let table = plain_table::check(t, file.len());
    let mut room = [0; plain_reading::MOST];
    let l = Listed::new(req, &mut room);
    over_table(table, terms, &l, t, file, v, out)
}

// 02 [8]: "blocks past the count, and a last piece under 512 bytes, are not looked at"
pub fn call(
    req: &[u8],
    area: &mut [u8],
    file: &[u8],
    v: &mut [u8],
    out: &mut [u8],
    terms: Terms,
) -> Result<Said, Refusal>
    ensures { Comes (serve (lent req.now area.old file.now v.old out.old terms))
        result area.new v.new out.new }
{
    let n = table::area::table_length(area);
    call_table(req, &mut area[..n], file, v, out, terms)
}
