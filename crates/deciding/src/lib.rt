#![tactic(auto)]
// One request over a sound table and a sound vector file: looked at, answered, carried out.
pub mod doing;
pub mod planning;

ghost use Rattle.std.specs.Prelude.{false, ◌≡◌, ◌≤◌};
ghost use Rattle.table.specs.SoundTable.{SoundTable};
ghost use Rattle.vectors.specs.VectorFile.{SoundVectors};
ghost use Rattle.reading.specs.Places.{seen_of};
ghost use Rattle.requests.specs.Features.{beyond_set, wanted_of};
ghost use Rattle.requests.specs.Judged.{fine};
ghost use Rattle.requests.specs.Request.{read_in};
ghost use Rattle.deciding.specs.Decide.{faulted, decide};
ghost use Rattle.refusals.specs.Passed.{Passed};
ghost use Rattle.deciding.specs.Answers.{Tells};

use answering::Ground;
use choices::giving;
use reading::{Dialect, Outcome, Verdict, experimental, kinds};
use requests::features;

// What is said of an answer: its length, and the place of the AVP at fault, 0 where none is; the request's command, the answer's result, and how many
// records have other bytes then. The place is a number, as the definition `decide` has it.
#[derive(Clone, Copy)]
pub struct Told {
    pub length: u32,
    pub place: u16,
    pub command: usize,
    pub result: Outcome,
    pub altered: u32,
}

// The lent slices come one by one: of a struct, each clause would name `lent.entry.t.now` and `lent.exit.t.now`, and `answering` takes them one by one.

// The answer to a request that comes to a fault: nothing is altered.
fn answer_fault(
    out: &mut [u8],
    req: &[u8],
    t: &[u8],
    file: &[u8],
    v: &[u8],
    ground: Ground,
    f: Verdict,
) -> Told
    requires { Passed req.now out.old × SoundTable t.now ground.count × SoundVectors v.now
        × (ground.wanted ≡ wanted_of ground.dialect.terms req.now)
        × (decide ground.dialect req.now t.now ground.count v.now ≡ faulted t.now v.now f) × (f.place ≤ 16384) }
    ensures { Tells ground.dialect req.now t.now ground.count file.now v.now
        out.old out.new result
        × (t.now ≡ (decide ground.dialect req.now t.now ground.count v.now).table)
        × (v.now ≡ (decide ground.dialect req.now t.now ground.count v.now).vectors) }
{
    let length = answering::answer(out, req, t, file, v, ground, giving::faulty(f));
    Told {
        length: length as u32,
        place: f.place as u16,
        command: ground.dialect.command,
        result: f.result,
        altered: 0,
    }
}

// The answer to a request that was read and asks for nothing unsupported: written from the table and the vectors as they came, before the plan is
// carried out.
fn answer_read(
    out: &mut [u8],
    req: &[u8],
    t: &mut [u8],
    file: &[u8],
    v: &mut [u8],
    ground: Ground,
    found: [usize; kinds::KINDS],
) -> Told
    requires { Passed req.now out.old × SoundTable t.old ground.count × SoundVectors v.old
        × (ground.wanted ≡ wanted_of ground.dialect.terms req.now) × (beyond_set ground.dialect.terms req.now ≡ false)
        × (read_in ground.dialect req.now ≡ fine (seen_of req.now found)) }
    ensures { Tells ground.dialect req.now t.old ground.count file.now v.old
        out.old out.new result
        × (t.new ≡ (decide ground.dialect req.now t.old ground.count v.old).table)
        × (v.new ≡ (decide ground.dialect req.now t.old ground.count v.old).vectors) }
{
    let p = planning::plan_read(req, t, v, ground, found);
    let length = answering::answer(out, req, t, file, v, ground, p.given);
    let altered = doing::carry(t, ground.count, v, req, found, p);
    Told {
        length: length as u32,
        place: 0,
        command: ground.dialect.command,
        result: p.given.verdict.result,
        altered,
    }
}

// The answer to a request that was read: "X5011 after the missing-AVP check, before all decisions".
fn answer_fine(
    out: &mut [u8],
    req: &[u8],
    t: &mut [u8],
    file: &[u8],
    v: &mut [u8],
    ground: Ground,
    found: [usize; kinds::KINDS],
) -> Told
    requires { Passed req.now out.old × SoundTable t.old ground.count × SoundVectors v.old
        × (ground.wanted ≡ wanted_of ground.dialect.terms req.now)
        × (read_in ground.dialect req.now ≡ fine (seen_of req.now found)) }
    ensures { Tells ground.dialect req.now t.old ground.count file.now v.old
        out.old out.new result
        × (t.new ≡ (decide ground.dialect req.now t.old ground.count v.old).table)
        × (v.new ≡ (decide ground.dialect req.now t.old ground.count v.old).vectors) }
{
    if ground.wanted.beyond {
        let f = Verdict {
            result: Outcome::Experimental(experimental::FEATURE_UNSUPPORTED),
            place: 0,
            lacks: 0,
        };
        return answer_fault(out, req, t, file, v, ground, f);
    }
    answer_read(out, req, t, file, v, ground, found)
}

// What a call over sound files goes by: the dialect of its request, and how many records the table has.
#[derive(Clone, Copy)]
pub struct Asked {
    pub dialect: Dialect,
    pub count: usize,
}

// The answer to a request that was read: its AVPs are gone over for features only if reading took some.
fn answer_taken(
    out: &mut [u8],
    req: &[u8],
    t: &mut [u8],
    file: &[u8],
    v: &mut [u8],
    asked: Asked,
    found: [usize; kinds::KINDS],
) -> Told
    requires { Passed req.now out.old × SoundTable t.old asked.count × SoundVectors v.old
        × (read_in asked.dialect req.now ≡ fine (seen_of req.now found)) }
    ensures { Tells asked.dialect req.now t.old asked.count file.now v.old
        out.old out.new result
        × (t.new ≡ (decide asked.dialect req.now t.old asked.count v.old).table)
        × (v.new ≡ (decide asked.dialect req.now t.old asked.count v.old).vectors) }
{
    let ground = Ground {
        dialect: asked.dialect,
        wanted: features::wanted_read(req, asked.dialect, found),
        count: asked.count,
    };
    answer_fine(out, req, t, file, v, ground, found)
}

// One request over a sound table and a sound vector file.
pub fn answer_sound(
    out: &mut [u8],
    req: &[u8],
    t: &mut [u8],
    file: &[u8],
    v: &mut [u8],
    asked: Asked,
) -> Told
    requires { Passed req.now out.old × SoundTable t.old asked.count × SoundVectors v.old }
    ensures { Tells asked.dialect req.now t.old asked.count file.now v.old
        out.old out.new result
        × (t.new ≡ (decide asked.dialect req.now t.old asked.count v.old).table)
        × (v.new ≡ (decide asked.dialect req.now t.old asked.count v.old).vectors) }
{
    let dialect = asked.dialect;
    let mut found = [0; kinds::KINDS];
    match requests::read_in(req, dialect, &mut found) {
        Ok(()) => answer_taken(out, req, t, file, v, asked, found),
        Err(f) => {
            let ground = Ground {
                dialect,
                wanted: features::wanted_of(req, dialect.terms),
                count: asked.count,
            };
            answer_fault(out, req, t, file, v, ground, f)
        }
    }
}
