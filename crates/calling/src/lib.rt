#![tactic(auto)]
// One call: the refusals, tried in order, and the answer.
ghost use Rattle.std.specs.Prelude.{◌≡◌, ◌≤◌, length};
ghost use Rattle.table.specs.Check.{check_table};
ghost use Rattle.table.specs.SoundTable.{SoundTable};
ghost use Rattle.vectors.specs.VectorFile.{check_vectors};
ghost use Rattle.requests.specs.Request.{dialect_of};
ghost use Rattle.refusals.specs.Passed.{Passed};
ghost use Rattle.calling.specs.Lent.{lent};
ghost use Rattle.refusals.specs.Early.{check_value};
ghost use Rattle.calling.specs.Serve.{check_of, serve_table, serve};
ghost use Rattle.calling.specs.Leaves.{Leaves, Comes, serve_checked};

use blocks::Checked;
use deciding::{Asked, Told};
use reading::Terms;
use refusals::Refusal;

// What calls over the same files share: what the checks of the table and of the vector file say, which a call keeps, and the terms.
#[derive(Clone, Copy)]
pub struct Shared {
    pub table: Checked,
    pub vectors: Checked,
    pub terms: Terms,
}

// A request that all refusals but 6 let pass, over a vector file that was checked.
fn over_sound(
    d: Checked,
    asked: Asked,
    req: &[u8],
    t: &mut [u8],
    file: &[u8],
    v: &mut [u8],
    out: &mut [u8],
) -> Result<Told, Refusal>
    requires { Passed req.now out.old × SoundTable t.old asked.count × (d ≡ check_vectors v.old)
        × (asked.dialect ≡ dialect_of asked.dialect.terms req.now) }
    ensures { Leaves (lent req.now t.old file.now v.old out.old asked.dialect.terms)
        (serve_checked (lent req.now t.old file.now v.old out.old asked.dialect.terms)
        (Ok asked.count) d)
        asked.count result t.new v.new out.new }
{
    match d {
        Ok(_) => Ok(deciding::answer_sound(out, req, t, file, v, asked)),
        Err(_) => Err(Refusal::UnsoundVectors),
    }
}

// A request that the first five let pass, over a table and a vector file that were checked.
fn over_checked(
    k: Shared,
    req: &[u8],
    t: &mut [u8],
    file: &[u8],
    v: &mut [u8],
    out: &mut [u8],
) -> Result<Told, Refusal>
    requires { Passed req.now out.old × (k.table ≡ check_table t.old (length file.now)) × (k.vectors ≡ check_vectors v.old) }
    ensures { Leaves (lent req.now t.old file.now v.old out.old k.terms)
        (serve_checked (lent req.now t.old file.now v.old out.old k.terms) k.table k.vectors)
        (check_value k.table) result t.new v.new out.new }
{
    let c = k.table;
    let d = k.vectors;
    let dialect = requests::dialect(req, k.terms);
    match c {
        Ok(count) => {
            let asked = Asked {
                dialect,
                count: count as usize,
            };
            over_sound(d, asked, req, t, file, v, out)
        }
        Err(block) => Err(Refusal::Unsound(block)),
    }
}

// One call over a table and a vector file that were checked: whoever makes many calls checks once.
pub fn call_over(
    k: Shared,
    req: &[u8],
    t: &mut [u8],
    file: &[u8],
    v: &mut [u8],
    out: &mut [u8],
) -> Result<Told, Refusal>
    requires { (k.table ≡ check_table t.old (length file.now)) × (k.vectors ≡ check_vectors v.old) }
    ensures { Leaves (lent req.now t.old file.now v.old out.old k.terms)
        (serve_table (lent req.now t.old file.now v.old out.old k.terms))
        (check_value k.table) result t.new v.new out.new }
{
    refusals::early(k.terms, req, out)?;
    over_checked(k, req, t, file, v, out)
}

// "Five refusals of the call"; "Tried in this order."; "6 .. after 5"; "12, before 1": over a table whose length must be exact.
fn call_table(
    req: &[u8],
    t: &mut [u8],
    file: &[u8],
    v: &mut [u8],
    out: &mut [u8],
    terms: Terms,
) -> Result<Told, Refusal>
    ensures { Leaves (lent req.now t.old file.now v.old out.old terms)
        (serve_table (lent req.now t.old file.now v.old out.old terms))
        (check_value (check_of (lent req.now t.old file.now v.old out.old terms)))
        result t.new v.new out.new }
{
    refusals::early(terms, req, out)?;
    let k = Shared {
        table: table::check(t, file.len()),
        vectors: vectors::file::check(v),
        terms,
    };
    over_checked(k, req, t, file, v, out)
}

// The call over a working area: the table at its front alone is lent on, so that no byte past it can be looked at.
pub fn call(
    req: &[u8],
    area: &mut [u8],
    file: &[u8],
    v: &mut [u8],
    out: &mut [u8],
    terms: Terms,
) -> Result<Told, Refusal>
    ensures { Comes
        (serve (lent req.now area.old file.now v.old out.old terms))
        result area.new v.new out.new }
{
    let n = table::area::table_length(area);
    call_table(req, &mut area[..n], file, v, out, terms)
}
