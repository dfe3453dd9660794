// What is planned, done: the records are written, the vectors sent are marked.
ghost use Rattle.std.specs.Prelude.{◌≡◌};
ghost use Rattle.table.specs.SoundTable.{SoundTable};
ghost use Rattle.vectors.specs.Sendable.{Sendable};
ghost use Rattle.vectors.specs.VectorFile.{SoundVectors};
ghost use Rattle.rewrite.specs.Change.{altered_up_to};
ghost use Rattle.rewrite.specs.Fitting.{Fitting};
ghost use Rattle.reading.specs.Kinds.{server_name};
ghost use Rattle.reading.specs.Places.{seen_of};
ghost use Rattle.requests.specs.Request.{data_seen};
ghost use Rattle.assignment.specs.Assignment.{stored_name};
ghost use Rattle.deciding.specs.Deeds.{carried_out, spent_by};
ghost use Rattle.deciding.specs.DeedFits.{DeedFits};

use assignment::{naming, owned};
use choices::plan::{Deed, Plan, Settling};
use reading::kinds;
use requests::places;
use rewrite::Change;
use vectors::choice::Sent;
use vectors::mark;

// The server name that a record gets.
#[tactic(auto, unfolding(assignment::specs::Assignment::stored_name))]
fn stored(named: bool, server: &[u8]) -> &[u8]
    ensures { result.now ≡ stored_name named server.now }
{
    if named { server } else { &server[..0] }
}

// A row of the table of effects. Answers how many records have other bytes then.
#[tactic(auto, unfolding(crate::specs::Deeds::carried_out, assignment::specs::Assignment::planned_records, crate::specs::Plans::assignment_of))]
fn settle(t: &mut [u8], count: usize, req: &[u8], found: [usize; kinds::KINDS], w: Settling) -> u32
    requires { SoundTable t.old count × Fitting w.state (stored_name w.named (data_seen (seen_of req.now found) server_name)) }
    ensures { (t.new ≡ carried_out req.now t.old count (seen_of req.now found) (Deed.Settle w))
        × (result ≡ altered_up_to t.old t.new count) }
{
    let server = stored(w.named, places::data_of(req, found, kinds::SERVER_NAME));
    if w.owned {
        let user = places::data_of(req, found, kinds::USER_NAME);
        return owned::settle_owned(t, count, user, w.state, server);
    }
    naming::settle_named(t, count, req, w.state, server)
}

// The name that goes with a challenge, in the record and in those of its set. Answers the same.
#[tactic(auto, unfolding(crate::specs::Deeds::carried_out, rewrite::specs::Fitting::change_of))]
fn challenge(t: &mut [u8], count: usize, req: &[u8], found: [usize; kinds::KINDS], k: u32) -> u32
    requires { SoundTable t.old count × DeedFits count (data_seen (seen_of req.now found) server_name) (Deed.Challenge k) }
    ensures { (t.new ≡ carried_out req.now t.old count (seen_of req.now found) (Deed.Challenge k))
        × (result ≡ altered_up_to t.old t.new count) }
{
    let server = places::data_of(req, found, kinds::SERVER_NAME);
    rewrite::change_set(t, count, k as usize, Change::Challenged, server)
}

// The records. Answers the same.
#[tactic(auto, using(rewrite::proofs::Counts::altered_none), unfolding(crate::specs::Deeds::carried_out))]
fn carry_out(t: &mut [u8], count: usize, req: &[u8], found: [usize; kinds::KINDS], d: Deed) -> u32
    requires { SoundTable t.old count × DeedFits count (data_seen (seen_of req.now found) server_name) d }
    ensures { (t.new ≡ carried_out req.now t.old count (seen_of req.now found) d)
        × (result ≡ altered_up_to t.old t.new count) }
{
    match d {
        Deed::Leave => 0,
        Deed::Settle(w) => settle(t, count, req, found, w),
        Deed::Challenge(k) => challenge(t, count, req, found, k),
    }
}

// The vectors.
#[tactic(auto, unfolding(crate::specs::Deeds::spent_by))]
fn spend(v: &mut [u8], sent: Sent, d: Deed)
    requires { SoundVectors v.old × Sendable v.old sent }
    ensures { v.new ≡ spent_by v.old sent d }
{
    if let Deed::Challenge(_) = d {
        mark::spend(v, sent);
    }
}

// Both. Answers how many records have other bytes then.
pub fn carry(
    t: &mut [u8],
    count: usize,
    v: &mut [u8],
    req: &[u8],
    found: [usize; kinds::KINDS],
    p: Plan,
) -> u32
    requires { SoundTable t.old count × SoundVectors v.old × DeedFits count (data_seen (seen_of req.now found) server_name) p.deed
        × Sendable v.old p.given.sent }
    ensures { (t.new ≡ carried_out req.now t.old count (seen_of req.now found) p.deed)
        × (v.new ≡ spent_by v.old p.given.sent p.deed)
        × (result ≡ altered_up_to t.old t.new count) }
{
    let altered = carry_out(t, count, req, found, p.deed);
    spend(v, p.given.sent, p.deed);
    altered
}
