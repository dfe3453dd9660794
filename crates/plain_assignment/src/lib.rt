#![tactic(auto)]
// "SAR.": every rule is a pass over the records that are meant, and the first that fails decides. The records are written when the answer stands.
pub mod effects;

ghost use Rattle.std.specs.Prelude.{ℕ, Bool, List, true, Ok, ◌≡◌, ◌≤◌};
ghost use Rattle.std.specs.Fn.{FnReturnsAt};
ghost use Rattle.table.specs.SoundTable.{SoundTable};
ghost use Rattle.diameter.specs.Message.{body_of};
ghost use Rattle.requests.specs.Request.{identities};
ghost use Rattle.requests.specs.Identity.{places_from};
ghost use Rattle.choices.specs.Types.{is_removal};
ghost use Rattle.assignment.specs.Assignment.{every, meant_by, find_all, owned_here, owned_up_to, survey_of, user_known, owner_by, assign_meant, assign};
ghost use Rattle.assignment.specs.Survey.{sar_of, also_known, found_survey};
ghost use Rattle.plain_assignment.specs.Rules.{kept_at, kept_by};

use assignment::{Meant, Said, naming};
use blocks::block;
use choices::giving;
use choices::plan::{Plan, Survey};
use diameter::message;
use plain_table::bytes;
use record::fields;
use record::subscriber::Record;
use requests::identities;
use requests::identities::Identity;

// A pass over the named identities: whether the record of each keeps a rule. An identity that is unknown keeps it or not.
fn every_named<F: Fn(&[u8; 512]) -> bool>(
    t: &[u8],
    count: usize,
    req: &[u8],
    unknown: bool,
    keeps: F,
) -> bool
    requires table { SoundTable t.now count }
    requires callable { F.IsAlwaysCallable keeps }
    ensures { (p : List ℕ → Bool) → ((b : List ℕ) (r : Bool) → FnReturnsAt F.Fn keeps b r → r ≡ p b)
        → result ≡ every (kept_by t.now p unknown) (find_all t.now count (identities (body_of req.now))) }
{
    let mut good = true;
    let mut at = message::BODY;
    while let Some(Identity { place, past }) = identities::next_identity(req, at) {
        let kept = match plain_lookup::find_public(t, count, diameter::data_at(req, place)) {
            Some(k) => keeps(block(t, k as usize)),
            None => unknown,
        };
        good &= kept;
        at = past;
    }
    good
}

// "A removal without identity .. means its records not in state 0."
fn owned(b: &[u8; 512], user: &[u8]) -> bool
    ensures { result ≡ owned_here b.now user.now }
{
    (0 < b[Record::STATE_AT]) & bytes::same(fields::private(b), user)
}

// A pass over these.
fn every_owned<F: Fn(&[u8; 512]) -> bool>(t: &[u8], count: usize, user: &[u8], keeps: F) -> bool
    requires table { SoundTable t.now count }
    requires callable { F.IsAlwaysCallable keeps }
    ensures { (p : List ℕ → Bool) → ((b : List ℕ) (r : Bool) → FnReturnsAt F.Fn keeps b r → r ≡ p b)
        → result ≡ every (kept_at t.now p) (owned_up_to t.now user.now count) }
{
    let mut good = true;
    // From 0 on, as the definition counts them.
    for k in 0..count {
        let b = block(t, k + 1);
        good &= !owned(b, user) | keeps(b);
    }
    good
}

// "or a User-Name given, unknown"
fn user_known(t: &[u8], count: usize, named: bool, user: &[u8]) -> bool
    requires { SoundTable t.now count }
    ensures { result ≡ user_known t.now count named user.now }
{
    !named | plain_lookup::known_private(t, count, user)
}

// What the passes over the named identities say, which should be the owner's.
fn survey_named(t: &[u8], count: usize, req: &[u8], said: &Said, owner: &[u8]) -> Survey
    requires { SoundTable t.now count }
    ensures { result
        ≡ also_known (found_survey t.now owner.now said.now.server.now said.now.numbers.kind
        (find_all t.now count (identities (body_of req.now))))
        (user_known t.now count said.now.numbers.named said.now.user.now) }
{
    let server = said.server;
    let kind = said.numbers.kind;
    let known = every_named(t, count, req, false, |_| true);
    let absent = every_named(t, count, req, true, |_| false);
    let own = every_named(
        t,
        count,
        req,
        true,
        |b| bytes::same(fields::private(b), owner),
    );
    let stores = every_named(
        t,
        count,
        req,
        true,
        |b| bytes::same(fields::server(b), server),
    );
    let fits = every_named(t, count, req, true, |b| {
        (b[Record::SERVER_LENGTH_AT] == 0) | bytes::same(fields::server(b), server)
    });
    let right = every_named(t, count, req, true, |b| kind.allows(b[Record::STATE_AT]));
    Survey {
        known: known & user_known(t, count, said.numbers.named, said.user),
        some: !absent,
        own,
        stores,
        fits,
        right,
    }
}

// "All in one subscription, the User-Name's if given": else that of the record in block `first`.
#[tactic(auto, unfolding(assignment::specs::Assignment::owner_by, table::specs::Named::private_at))]
fn survey_by(t: &[u8], count: usize, req: &[u8], first: u32, said: &Said) -> Survey
    requires { SoundTable t.now count × (first ≤ count) }
    ensures { result
        ≡ also_known (found_survey t.now (owner_by t.now first said.now.numbers.named said.now.user.now) said.now.server.now
        said.now.numbers.kind (find_all t.now count (identities (body_of req.now))))
        (user_known t.now count said.now.numbers.named said.now.user.now) }
{
    let owner = if said.numbers.named {
        said.user
    } else {
        fields::private(block(t, first as usize))
    };
    survey_named(t, count, req, said, owner)
}

// What the passes over the User-Name's records say.
fn survey_owned(t: &[u8], count: usize, said: &Said) -> Survey
    requires { SoundTable t.now count }
    ensures { result
        ≡ also_known (survey_of t.now said.now.user.now said.now.server.now said.now.numbers.kind true
        (owned_up_to t.now said.now.user.now count))
        (user_known t.now count said.now.numbers.named said.now.user.now) }
{
    let user = said.user;
    let server = said.server;
    let kind = said.numbers.kind;
    let absent = every_owned(t, count, user, |_| false);
    let own = every_owned(t, count, user, |b| bytes::same(fields::private(b), user));
    let stores = every_owned(t, count, user, |b| bytes::same(fields::server(b), server));
    let fits = every_owned(t, count, user, |b| {
        (b[Record::SERVER_LENGTH_AT] == 0) | bytes::same(fields::server(b), server)
    });
    let right = every_owned(t, count, user, |b| kind.allows(b[Record::STATE_AT]));
    Survey {
        known: user_known(t, count, said.numbers.named, user),
        some: !absent,
        own,
        stores,
        fits,
        right,
    }
}

// The identities begin at a place.
fn plan_named(t: &[u8], count: usize, req: &[u8], place: usize, said: &Said) -> Plan
    requires { SoundTable t.now count
        × (Ok (Meant.Listed place) ≡ meant_by (is_removal said.now.numbers.kind) said.now.numbers.named (places_from 20 (body_of req.now))) }
    ensures { result ≡ assign_meant t.now count (sar_of req.now said.now.numbers said.now.server.now said.now.user.now) (Ok (Meant.Listed place)) }
{
    let f = plain_lookup::find_public(t, count, diameter::data_at(req, place));
    let first = lookup::block_found(f);
    let v = survey_by(t, count, req, first, said);
    said.numbers
        .plan(v.finding(said.numbers.kind), first, false)
}

// There are none, and a User-Name is given.
fn plan_owned(t: &[u8], count: usize, req: &[u8], said: &Said) -> Plan
    requires { SoundTable t.now count }
    ensures { result ≡ assign_meant t.now count (sar_of req.now said.now.numbers said.now.server.now said.now.user.now) (Ok Meant.Owned) }
{
    let v = survey_owned(t, count, said);
    said.numbers.plan(v.finding(said.numbers.kind), 0, true)
}

// The plan of a SAR: whom it means, what the rules say of them, and what is to be written.
#[tactic(auto, unfolding(assignment::specs::Assignment::assign, assignment::specs::Assignment::assign_meant))]
pub fn plan_sar(t: &[u8], count: usize, req: &[u8], said: &Said) -> Plan
    requires { SoundTable t.now count }
    ensures { result ≡ assign t.now count (sar_of req.now said.now.numbers said.now.server.now said.now.user.now) }
{
    let numbers = said.numbers;
    match naming::meant_by(req, numbers.kind.is_removal(), numbers.named) {
        Ok(Meant::Owned) => plan_owned(t, count, req, said),
        Ok(Meant::Listed(place)) => plan_named(t, count, req, place, said),
        Err(verdict) => Plan::reply_only(giving::faulty(verdict)),
    }
}
