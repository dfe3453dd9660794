#![tactic(auto)]
// One request over a sound table and a sound vector file: planned by its command, answered, and then done.
ghost use Rattle.std.specs.Prelude.{false, ◌≡◌, ◌≤◌, length};
ghost use Rattle.table.specs.SoundTable.{SoundTable};
ghost use Rattle.vectors.specs.Sendable.{Sendable};
ghost use Rattle.vectors.specs.VectorFile.{SoundVectors};
ghost use Rattle.rewrite.specs.Fitting.{Fitting};
ghost use Rattle.reading.specs.Kinds.{server_name};
ghost use Rattle.reading.specs.Places.{seen_of};
ghost use Rattle.requests.specs.Features.{beyond_set, wanted_of};
ghost use Rattle.requests.specs.Judged.{fine};
ghost use Rattle.requests.specs.Request.{read_in, data_seen};
ghost use Rattle.assignment.specs.Assignment.{stored_name};
ghost use Rattle.refusals.specs.Passed.{Passed};
ghost use Rattle.octets.specs.Run.{Wrote};
ghost use Rattle.answering.specs.Answer.{answer_bytes};
ghost use Rattle.deciding.specs.Answers.{Planned};
ghost use Rattle.deciding.specs.Decide.{faulted, decide};
ghost use Rattle.deciding.specs.DeedFits.{DeedFits};
ghost use Rattle.deciding.specs.Deeds.{carried_out, spent_by};
ghost use Rattle.deciding.specs.Plans.{numbers_in, uar_plan, sar_plan, lir_plan, mar_plan};
ghost use Rattle.plain_deciding.specs.Says.{Says};

use answering::Ground;
use blocks::block;
use choices::giving;
use choices::plan::{Deed, Plan, Sar, Settling};
use choices::types::AssignmentType;
use plain_answering::Carried;
use plain_assignment::effects;
use plain_reading::Listed;
use reading::{Outcome, Verdict, experimental, kinds};
use record::header::Header;
use requests::places;
use rewrite::Change;
use vectors::choice::Sent;
use vectors::mark;

// "Otherwise the call returns the answer's length"; 02 [2]: "the place of the AVP at fault, or 0".
#[derive(Clone, Copy)]
pub struct Said {
    pub length: u32,
    pub place: u16,
}

// "UAR.", of User-Name, Public-Identity, Visited-Network-Identifier and User-Authorization-Type.
#[tactic(auto, unfolding(deciding::specs::Plans::uar_plan))]
fn plan_uar(req: &[u8], t: &[u8], count: usize, found: [usize; kinds::KINDS]) -> Plan
    requires { SoundTable t.now count }
    ensures { result ≡ uar_plan t.now count (seen_of req.now found) }
{
    Plan::reply_only(plain_questions::authorize(
        t,
        count,
        places::data_of(req, found, kinds::USER_NAME),
        places::data_of(req, found, kinds::PUBLIC_IDENTITY),
        places::data_of(req, found, kinds::VISITED_NETWORK),
        places::value_of(req, found, kinds::AUTHORIZATION_TYPE),
    ))
}

// The numbers of a SAR, and the header's keep.
fn numbers(req: &[u8], t: &[u8], found: [usize; kinds::KINDS]) -> Sar
    requires { 512 ≤ length t.now }
    ensures { result ≡ numbers_in t.now (seen_of req.now found) }
{
    Sar {
        kind: AssignmentType::from(places::value_of(req, found, kinds::ASSIGNMENT_TYPE)),
        already: places::value_of(req, found, kinds::DATA_AVAILABLE),
        named: places::given(req, found, kinds::USER_NAME),
        keep: octets::byte(block(t, 0), Header::KEEP_AT) == 1,
    }
}

// "SAR."
#[tactic(auto, unfolding(deciding::specs::Plans::sar_plan, deciding::specs::Plans::assignment_of))]
fn plan_sar(req: &[u8], t: &[u8], count: usize, found: [usize; kinds::KINDS]) -> Plan
    requires { SoundTable t.now count }
    ensures { result ≡ sar_plan req.now t.now count (seen_of req.now found) }
{
    let said = assignment::Said {
        numbers: numbers(req, t, found),
        server: places::data_of(req, found, kinds::SERVER_NAME),
        user: places::data_of(req, found, kinds::USER_NAME),
    };
    plain_assignment::plan_sar(t, count, req, &said)
}

// "LIR."
#[tactic(auto, unfolding(deciding::specs::Plans::lir_plan))]
fn plan_lir(req: &[u8], t: &[u8], count: usize, found: [usize; kinds::KINDS]) -> Plan
    requires { SoundTable t.now count }
    ensures { result ≡ lir_plan t.now count (seen_of req.now found) }
{
    Plan::reply_only(plain_questions::locate(
        t,
        count,
        places::data_of(req, found, kinds::PUBLIC_IDENTITY),
    ))
}

// 02 [1]'s authentication request.
#[tactic(auto, unfolding(deciding::specs::Plans::mar_plan))]
fn plan_mar(req: &[u8], t: &[u8], count: usize, v: &[u8], found: [usize; kinds::KINDS]) -> Plan
    requires { SoundTable t.now count × SoundVectors v.now }
    ensures { result ≡ mar_plan t.now count v.now (seen_of req.now found) }
{
    plain_questions::authenticate(
        t,
        count,
        v,
        places::data_of(req, found, kinds::USER_NAME),
        places::data_of(req, found, kinds::PUBLIC_IDENTITY),
        places::member_of(req, found, kinds::AUTH_DATA_ITEM),
        places::value_of(req, found, kinds::NUMBER_AUTH_ITEMS),
    )
}

// "User-Authorization (UAR, 300), Server-Assignment (SAR, 301) and Location-Info (LIR, 302)"; "Multimedia-Auth (303)": no other is read.
pub fn plan_read(
    req: &[u8],
    t: &[u8],
    v: &[u8],
    ground: Ground,
    found: [usize; kinds::KINDS],
) -> Plan
    requires { SoundTable t.now ground.count × SoundVectors v.now × (read_in ground.dialect req.now ≡ fine (seen_of req.now found)) }
    ensures { Planned ground.dialect req.now t.now ground.count v.now (seen_of req.now found) result }
{
    let count = ground.count;
    match ground.dialect.command {
        reading::UAR => plan_uar(req, t, count, found),
        reading::SAR => plan_sar(req, t, count, found),
        reading::LIR => plan_lir(req, t, count, found),
        _ => plan_mar(req, t, count, v, found),
    }
}

// "name stored", "name kept"; "no name"
#[tactic(auto, unfolding(assignment::specs::Assignment::stored_name))]
fn stored(named: bool, server: &[u8]) -> &[u8]
    ensures { result.now ≡ stored_name named server.now }
{
    if named { server } else { &server[..0] }
}

// A row of the table of effects.
fn settle(t: &mut [u8], count: usize, req: &[u8], found: [usize; kinds::KINDS], w: Settling)
    requires { SoundTable t.old count × Fitting w.state (stored_name w.named (data_seen (seen_of req.now found) server_name)) }
    ensures { t.new ≡ carried_out req.now t.old count (seen_of req.now found) (Deed.Settle w) }
{
    let server = stored(w.named, places::data_of(req, found, kinds::SERVER_NAME));
    if w.owned {
        let user = places::data_of(req, found, kinds::USER_NAME);
        return effects::settle_owned(t, count, user, w.state, server);
    }
    effects::settle_named(t, count, req, w.state, server)
}

// "The Server-Name is stored if different"
fn challenge(t: &mut [u8], count: usize, req: &[u8], found: [usize; kinds::KINDS], k: u32)
    requires { SoundTable t.old count × DeedFits count (data_seen (seen_of req.now found) server_name) (Deed.Challenge k) }
    ensures { t.new ≡ carried_out req.now t.old count (seen_of req.now found) (Deed.Challenge k) }
{
    let server = places::data_of(req, found, kinds::SERVER_NAME);
    effects::change_set(t, count, k as usize, Change::Challenged, server)
}

// The records.
#[tactic(auto, unfolding(deciding::specs::Deeds::carried_out))]
fn carry_out(t: &mut [u8], count: usize, req: &[u8], found: [usize; kinds::KINDS], d: Deed)
    requires { SoundTable t.old count × DeedFits count (data_seen (seen_of req.now found) server_name) d }
    ensures { t.new ≡ carried_out req.now t.old count (seen_of req.now found) d }
{
    match d {
        Deed::Leave => {}
        Deed::Settle(w) => settle(t, count, req, found, w),
        Deed::Challenge(k) => challenge(t, count, req, found, k),
    }
}

// The vectors: those that are sent "are marked used".
#[tactic(auto, unfolding(deciding::specs::Deeds::spent_by))]
fn spend(v: &mut [u8], sent: Sent, d: Deed)
    requires { SoundVectors v.old × Sendable v.old sent }
    ensures { v.new ≡ spent_by v.old sent d }
{
    if let Deed::Challenge(_) = d {
        mark::spend(v, sent);
    }
}

// What an answer stands on, with the fault that a request came to, or with the places of its AVPs.
#[derive(Clone, Copy)]
pub struct Blamed {
    pub ground: Ground,
    pub fault: Verdict,
}

#[derive(Clone, Copy)]
pub struct Held {
    pub ground: Ground,
    pub found: [usize; kinds::KINDS],
}

// Both, once the answer stands.
fn carry(t: &mut [u8], v: &mut [u8], req: &[u8], h: Held, p: Plan)
    requires { SoundTable t.old h.ground.count × SoundVectors v.old
        × DeedFits h.ground.count (data_seen (seen_of req.now h.found) server_name) p.deed × Sendable v.old p.given.sent }
    ensures { (t.new ≡ carried_out req.now t.old h.ground.count (seen_of req.now h.found) p.deed)
        × (v.new ≡ spent_by v.old p.given.sent p.deed) }
{
    carry_out(t, h.ground.count, req, h.found, p.deed);
    spend(v, p.given.sent, p.deed);
}

// The answer to a request that comes to a fault: nothing is altered.
pub fn answer_fault(out: &mut [u8], l: &Listed, t: &[u8], file: &[u8], v: &[u8], b: Blamed) -> Said
    requires { Passed l.now.req.now out.old × SoundTable t.now b.ground.count × SoundVectors v.now
        × (b.ground.wanted ≡ wanted_of b.ground.dialect.terms l.now.req.now)
        × (decide b.ground.dialect l.now.req.now t.now b.ground.count v.now ≡ faulted t.now v.now b.fault)
        × (b.fault.place ≤ 16384) }
    ensures { Says b.ground.dialect l.now.req.now t.now b.ground.count file.now v.now
        out.old out.new result
        × (t.now ≡ (decide b.ground.dialect l.now.req.now t.now b.ground.count v.now).table)
        × (v.now ≡ (decide b.ground.dialect l.now.req.now t.now b.ground.count v.now).vectors) }
{
    let ground = b.ground;
    let given = giving::faulty(b.fault);
    let length = plain_answering::answer(out, l, t, file, v, Carried { ground, given });
    Said {
        length: length as u32,
        place: b.fault.place as u16,
    }
}

// What is planned, and how long the answer is.
#[derive(Clone, Copy)]
struct Written {
    plan: Plan,
    length: usize,
}

// The answer to a request that was read and asks for nothing unsupported: written from the table and the vectors as they came.
fn answer_planned(out: &mut [u8], l: &Listed, t: &[u8], file: &[u8], v: &[u8], h: Held) -> Written
    requires { Passed l.now.req.now out.old × SoundTable t.now h.ground.count × SoundVectors v.now
        × (h.ground.wanted ≡ wanted_of h.ground.dialect.terms l.now.req.now)
        × (read_in h.ground.dialect l.now.req.now ≡ fine (seen_of l.now.req.now h.found)) }
    ensures { (result.length ≤ 36864)
        × Planned h.ground.dialect l.now.req.now t.now h.ground.count v.now (seen_of l.now.req.now h.found) result.plan
        × Wrote (answer_bytes h.ground.dialect.terms l.now.req.now t.now file.now v.now result.plan.given)
        out.old out.new result.length }
{
    let ground = h.ground;
    let plan = plan_read(l.req, t, v, ground, h.found);
    let given = plan.given;
    let length = plain_answering::answer(out, l, t, file, v, Carried { ground, given });
    Written { plan, length }
}

// Then what is planned is done.
fn answer_read(out: &mut [u8], l: &Listed, t: &mut [u8], file: &[u8], v: &mut [u8], h: Held) -> Said
    requires { Passed l.now.req.now out.old × SoundTable t.old h.ground.count × SoundVectors v.old
        × (h.ground.wanted ≡ wanted_of h.ground.dialect.terms l.now.req.now) × (beyond_set h.ground.dialect.terms l.now.req.now ≡ false)
        × (read_in h.ground.dialect l.now.req.now ≡ fine (seen_of l.now.req.now h.found)) }
    ensures { Says h.ground.dialect l.now.req.now t.old h.ground.count file.now v.old
        out.old out.new result
        × (t.new ≡ (decide h.ground.dialect l.now.req.now t.old h.ground.count v.old).table)
        × (v.new ≡ (decide h.ground.dialect l.now.req.now t.old h.ground.count v.old).vectors) }
{
    let w = answer_planned(out, l, t, file, v, h);
    carry(t, v, l.req, h, w.plan);
    Said {
        length: w.length as u32,
        place: 0,
    }
}

// 02 [11]: "X5011 after the missing-AVP check, before all decisions"
pub fn answer_fine(
    out: &mut [u8],
    l: &Listed,
    t: &mut [u8],
    file: &[u8],
    v: &mut [u8],
    h: Held,
) -> Said
    requires { Passed l.now.req.now out.old × SoundTable t.old h.ground.count × SoundVectors v.old
        × (h.ground.wanted ≡ wanted_of h.ground.dialect.terms l.now.req.now)
        × (read_in h.ground.dialect l.now.req.now ≡ fine (seen_of l.now.req.now h.found)) }
    ensures { Says h.ground.dialect l.now.req.now t.old h.ground.count file.now v.old
        out.old out.new result
        × (t.new ≡ (decide h.ground.dialect l.now.req.now t.old h.ground.count v.old).table)
        × (v.new ≡ (decide h.ground.dialect l.now.req.now t.old h.ground.count v.old).vectors) }
{
    let ground = h.ground;
    if ground.wanted.beyond {
        // Written out: what makes a `Verdict` in crate reading is for base results.
        let fault = Verdict {
            result: Outcome::Experimental(experimental::FEATURE_UNSUPPORTED),
            place: 0,
            lacks: 0,
        };
        return answer_fault(out, l, t, file, v, Blamed { ground, fault });
    }
    answer_read(out, l, t, file, v, h)
}
