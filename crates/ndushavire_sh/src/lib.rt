#![tactic(auto)]
// What the daemon calls for the Sh interface. Of the first library it asks the table's check, by its promise, and takes the word's form.
ghost use Rattle.std.specs.Prelude.{◌≡◌};
ghost use Rattle.requests.specs.Request.{under_sh};
ghost use Rattle.refusals.specs.Passed.{Passed};
ghost use Rattle.refusals.specs.Early.{early};
ghost use Rattle.ndushavire.specs.Promise.{CheckPromise};
ghost use Rattle.ndushavire_sh.specs.Lent.{lent};
ghost use Rattle.ndushavire_sh.specs.Promise.{ShDecidePromise};

use diameter::codes;
use ndushavire::word;
use reading::Terms;

// The terms of a call: no features are supported here.
fn terms_of(peer: u32) -> Terms
    ensures { result ≡ under_sh peer }
{
    Terms {
        application: codes::SH,
        peer,
        features: 0,
    }
}

// A request that the first refusals let pass, over a table of which the check said so: its word is the call's where the table is unsound. It is a word and
// no Result: the first library is asked through its C interface alone.
fn over_checked(
    checked: u64,
    req: &[u8],
    area: &[u8],
    profile: &[u8],
    out: &mut [u8],
    peer: u32,
) -> u64
    requires { (early (under_sh peer) req.now out.old ≡ 0) × Passed req.now out.old × CheckPromise area.now profile.now checked }
    ensures { ShDecidePromise (lent req.now area.now profile.now out.old peer) result out.new }
{
    if word::number_in(checked) != 0 {
        return checked;
    }
    let count = word::value_in(checked) as usize;
    let t = table::area::table_in(area);
    let reply = sh::answer_sound(out, req, t, count, requests::dialect(req, terms_of(peer)));
    word::of(0, reply.place, reply.length)
}

// "A second crate .. answers User-Data-Request (306, application 16777217) of the Sh interface"; "The table is only read."
#[unsafe(no_mangle)]
pub extern "C" fn ndushavire_sh_decide(
    request: &[u8],
    table: &[u8],
    profile: &[u8],
    answer: &mut [u8],
    peer: u32,
) -> u64
    ensures { ShDecidePromise
        (lent request.now table.now profile.now answer.old peer)
        result answer.new }
{
    match refusals::early(terms_of(peer), request, answer) {
        Ok(()) => {
            let checked = ndushavire::ndushavire_check(table, profile);
            over_checked(checked, request, table, profile, answer, peer)
        }
        Err(r) => word::of(r.number(), 0, 0),
    }
}
