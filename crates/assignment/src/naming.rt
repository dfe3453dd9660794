// The records of named identities: looked at, and settled.
ghost use Rattle.std.specs.Prelude.{◌≡◌, [], ◌∷◌, ◌≤◌, length};
ghost use Rattle.table.specs.SoundTable.{SoundTable};
ghost use Rattle.rewrite.specs.Change.{after_of, reaches, altered_up_to};
ghost use Rattle.rewrite.specs.Renew.{settled};
ghost use Rattle.rewrite.specs.Fitting.{Fitting};
ghost use Rattle.diameter.specs.Message.{body_of};
ghost use Rattle.requests.specs.Request.{identities};
ghost use Rattle.requests.specs.Identity.{places_from};
ghost use Rattle.lookup.specs.Among.{Among};
ghost use Rattle.assignment.specs.Assignment.{meant_by, find_all, numbers_of};
ghost use Rattle.assignment.specs.Survey.{found_survey};

use crate::{Asks, Meant, looking};
use choices::plan::Survey;
use diameter::message;
use reading::{Verdict, base, kinds};
use requests::identities;
use requests::identities::Identity;
use rewrite::Change;

// "Others need exactly one identity"; "A removal without identity needs a User-Name".
pub fn meant_by(req: &[u8], removal: bool, named: bool) -> Result<Meant, Verdict>
    ensures { result ≡ meant_by removal named (places_from 20 (body_of req.now)) }
{
    let Some(Identity { place, past }) = identities::next_identity(req, message::BODY) else {
        if removal & named {
            return Ok(Meant::Owned);
        }
        return Err(Verdict::lacking(kinds::PUBLIC_IDENTITY));
    };
    if removal {
        return Ok(Meant::Listed(place));
    }
    match identities::next_identity(req, past) {
        None => Ok(Meant::Listed(place)),
        Some(second) => Err(Verdict::at(base::AVP_OCCURS_TOO_MANY_TIMES, second.place)),
    }
}

// All that are named, asked whether they are the owner's.
pub fn survey_all(t: &[u8], count: usize, req: &[u8], asks: Asks) -> Survey
    requires { SoundTable t.now count }
    ensures { result ≡ found_survey t.now asks.entry.owner.now asks.entry.server.now asks.entry.kind
        (find_all t.now count (identities (body_of req.now))) }
{
    let mut seen = looking::fresh();
    let mut at = message::BODY;
    while let Some(Identity { place, past }) = identities::next_identity(req, at) {
        let f = lookup::find_public(t, count, diameter::data_at(req, place));
        seen = looking::join(seen, asks.look_found(t, f));
        at = past;
    }
    seen
}

// The effect on a record that was found, and on those of its set. Answers how many records have other bytes then.
fn settle_found(t: &mut [u8], count: usize, f: Option<u32>, state: u8, server: &[u8]) -> u32
    requires { SoundTable t.old count × Among count f × Fitting state server.now }
    ensures { (t.new ≡ after_of t.old count (reaches t.old (numbers_of (f ∷ []))) (settled state server.now))
        × (result ≡ altered_up_to t.old t.new count) × (result ≤ 4096) }
{
    match f {
        Some(k) => rewrite::change_set(t, count, k as usize, Change::Settled(state), server),
        None => 0,
    }
}

// The effect on each record that is named, and on those of their sets. Answers the same.
pub fn settle_named(t: &mut [u8], count: usize, req: &[u8], state: u8, server: &[u8]) -> u32
    requires { SoundTable t.old count × Fitting state server.now }
    ensures { (t.new
        ≡ after_of t.old count (reaches t.old (numbers_of (find_all t.old count (identities (body_of req.now)))))
        (settled state server.now))
        × (result ≡ altered_up_to t.old t.new count) }
{
    let mut altered = 0;
    let mut at = message::BODY;
    while let Some(Identity { place, past }) = identities::next_identity(req, at) {
        let f = lookup::find_public(t, count, diameter::data_at(req, place));
        altered += settle_found(t, count, f, state, server);
        at = past;
    }
    altered
}
