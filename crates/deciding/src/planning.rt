// The plan of a request that was read, by its dialect's command: nothing is written yet.
ghost use Rattle.std.specs.Prelude.{◌≡◌, ◌≤◌, length, eqb};
ghost use Rattle.record.specs.Fields.{keep_of};
ghost use Rattle.blocks.specs.Blocks.{block_of};
ghost use Rattle.table.specs.SoundTable.{SoundTable};
ghost use Rattle.vectors.specs.VectorFile.{SoundVectors};
ghost use Rattle.reading.specs.Places.{seen_of};
ghost use Rattle.requests.specs.Judged.{fine};
ghost use Rattle.requests.specs.Request.{read_in};
ghost use Rattle.deciding.specs.Plans.{numbers_in, uar_plan, sar_plan, lir_plan, mar_plan};
ghost use Rattle.deciding.specs.Answers.{Planned};

use answering::Ground;
use assignment::Said;
use choices::plan::{Plan, Sar};
use choices::types::AssignmentType;
use questions::{authentication, authorization, location};
use reading::kinds;
use record::header::Header;
use requests::places;

// Whether the header says that names are kept.
fn keep(t: &[u8]) -> bool
    requires { 512 ≤ length t.now }
    ensures { result ≡ eqb (keep_of (block_of t.now 0)) 1 }
{
    blocks::block(t, 0)[Header::KEEP_AT] == 1
}

#[tactic(auto, unfolding(crate::specs::Plans::uar_plan))]
fn plan_uar(req: &[u8], t: &[u8], count: usize, found: [usize; kinds::KINDS]) -> Plan
    requires { SoundTable t.now count }
    ensures { result ≡ uar_plan t.now count (seen_of req.now found) }
{
    Plan::reply_only(authorization::authorize(
        t,
        count,
        places::data_of(req, found, kinds::USER_NAME),
        places::data_of(req, found, kinds::PUBLIC_IDENTITY),
        places::data_of(req, found, kinds::VISITED_NETWORK),
        places::value_of(req, found, kinds::AUTHORIZATION_TYPE),
    ))
}

// The numbers of a SAR.
fn numbers(req: &[u8], t: &[u8], found: [usize; kinds::KINDS]) -> Sar
    requires { 512 ≤ length t.now }
    ensures { result ≡ numbers_in t.now (seen_of req.now found) }
{
    Sar {
        kind: AssignmentType::from(places::value_of(req, found, kinds::ASSIGNMENT_TYPE)),
        already: places::value_of(req, found, kinds::DATA_AVAILABLE),
        named: places::given(req, found, kinds::USER_NAME),
        keep: keep(t),
    }
}

#[tactic(auto, unfolding(crate::specs::Plans::sar_plan, crate::specs::Plans::assignment_of))]
fn plan_sar(req: &[u8], t: &[u8], count: usize, found: [usize; kinds::KINDS]) -> Plan
    requires { SoundTable t.now count }
    ensures { result ≡ sar_plan req.now t.now count (seen_of req.now found) }
{
    let said = Said {
        numbers: numbers(req, t, found),
        server: places::data_of(req, found, kinds::SERVER_NAME),
        user: places::data_of(req, found, kinds::USER_NAME),
    };
    said.plan(t, count, req)
}

#[tactic(auto, unfolding(crate::specs::Plans::lir_plan))]
fn plan_lir(req: &[u8], t: &[u8], count: usize, found: [usize; kinds::KINDS]) -> Plan
    requires { SoundTable t.now count }
    ensures { result ≡ lir_plan t.now count (seen_of req.now found) }
{
    Plan::reply_only(location::locate(
        t,
        count,
        places::data_of(req, found, kinds::PUBLIC_IDENTITY),
    ))
}

#[tactic(auto, unfolding(crate::specs::Plans::mar_plan))]
fn plan_mar(req: &[u8], t: &[u8], count: usize, v: &[u8], found: [usize; kinds::KINDS]) -> Plan
    requires { SoundTable t.now count × SoundVectors v.now }
    ensures { result ≡ mar_plan t.now count v.now (seen_of req.now found) }
{
    authentication::authenticate(
        t,
        count,
        v,
        places::data_of(req, found, kinds::USER_NAME),
        places::data_of(req, found, kinds::PUBLIC_IDENTITY),
        places::member_of(req, found, kinds::AUTH_DATA_ITEM),
        places::value_of(req, found, kinds::NUMBER_AUTH_ITEMS),
    )
}

// No other command is read than these four.
pub fn plan_read(
    req: &[u8],
    t: &[u8],
    v: &[u8],
    ground: Ground,
    found: [usize; kinds::KINDS],
) -> Plan
    requires { SoundTable t.now ground.count × SoundVectors v.now × (read_in ground.dialect req.now ≡ fine (seen_of req.now found)) }
    ensures { Planned ground.dialect req.now t.now ground.count v.now (seen_of req.now found) result }
{
    let count = ground.count;
    match ground.dialect.command {
        reading::UAR => plan_uar(req, t, count, found),
        reading::SAR => plan_sar(req, t, count, found),
        reading::LIR => plan_lir(req, t, count, found),
        _ => plan_mar(req, t, count, v, found),
    }
}
