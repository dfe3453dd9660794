#![tactic(auto)]
// "Decisions": UAR, LIR and 02 [1]'s authentication request over a sound table. Every question is asked, and the choice has document 01's order.
ghost use Rattle.std.specs.Prelude.{◌≡◌};
ghost use Rattle.blocks.specs.Blocks.{block_of};
ghost use Rattle.table.specs.SoundTable.{SoundTable};
ghost use Rattle.vectors.specs.VectorFile.{SoundVectors};
ghost use Rattle.lookup.specs.Among.{Among};
ghost use Rattle.lookup.specs.Find.{is_at, find_private, barred_alone};
ghost use Rattle.questions.specs.Authentication.{claimed_at, claimed_of, to_send, authenticate};
ghost use Rattle.questions.specs.Authorization.{asked_at, asked_of, authorize};
ghost use Rattle.questions.specs.Carried.{served_by, carried};
ghost use Rattle.questions.specs.Location.{sought_at, sought_of, locate};

use blocks::block;
use choices::challenge::Claimed;
use choices::choice::{Asked, Choice, Sought};
use choices::plan::Plan;
use choices::{Given, challenge, giving};
use plain_table::bytes;
use reading::Outcome;
use record::fields;
use record::subscriber::Record;
use vectors::choice::Sent;

// "the first server name in the subscription by table order ..; none, capabilities": those of block k.
fn served_by(f: Option<u32>, res: Outcome, other: Outcome, k: u32) -> Given
    ensures { result ≡ served_by f res other k }
{
    match f {
        Some(j) => giving::serving(res, j),
        None => giving::capable(other, k),
    }
}

// What a choice on the record in block k carries; user is its subscription.
#[tactic(auto, unfolding(questions::specs::Carried::carried))]
fn carry(t: &[u8], count: usize, user: &[u8], k: u32, choice: Choice) -> Given
    requires { SoundTable t.now count }
    ensures { result ≡ carried t.now count user.now k choice }
{
    match choice {
        Choice::Alone(result) => giving::plain(result),
        Choice::Server(result) => giving::serving(result, k),
        Choice::Capabilities(result) => giving::capable(result, k),
        Choice::First(result, other) => served_by(
            plain_lookup::first_server(t, count, user),
            result,
            other,
            k,
        ),
    }
}

// "UAR.": what is asked of the record in block b.
#[tactic(auto, unfolding(questions::specs::Authorization::asked_at))]
fn ask_record(t: &[u8], count: usize, b: &[u8; 512], user: &[u8], network: &[u8]) -> Asked
    requires { SoundTable t.now count }
    ensures { result
        ≡ asked_at (block_of t.now 0) b.now (is_at (find_private t.now count user.now))
        (barred_alone t.now count b.now) user.now network.now }
{
    Asked {
        known: plain_lookup::known_private(t, count, user),
        together: bytes::same(fields::private(b), user),
        barred: plain_lookup::barred_alone(t, count, b),
        roams: plain_lookup::may_roam(t, count, b, network),
        present: 0 < b[Record::STATE_AT],
    }
}

// "Either identity unknown": the same of the record with the public identity, if there is one.
#[tactic(auto, using(lookup::proofs::Among::among_room), unfolding(questions::specs::Authorization::asked_of))]
fn ask(t: &[u8], count: usize, user: &[u8], network: &[u8], f: Option<u32>) -> Asked
    requires { SoundTable t.now count × Among count f }
    ensures { result ≡ asked_of t.now count user.now network.now f }
{
    match f {
        Some(k) => ask_record(t, count, block(t, k as usize), user, network),
        None => Asked {
            known: false,
            together: false,
            barred: false,
            roams: false,
            present: false,
        },
    }
}

#[tactic(auto, using(lookup::proofs::Among::public_among), unfolding(questions::specs::Authorization::authorize, questions::specs::Authorization::authorize_found))]
pub fn authorize(
    t: &[u8],
    count: usize,
    user: &[u8],
    public: &[u8],
    network: &[u8],
    kind: u32,
) -> Given
    requires { SoundTable t.now count }
    ensures { result ≡ authorize t.now count user.now public.now network.now kind }
{
    let f = plain_lookup::find_public(t, count, public);
    let asked = ask(t, count, user, network, f);
    carry(
        t,
        count,
        user,
        lookup::block_found(f),
        asked.authorization(kind),
    )
}

// "LIR.": what is asked of the record in block b.
#[tactic(auto, unfolding(questions::specs::Location::sought_at))]
fn seek_record(b: &[u8; 512]) -> Sought
    ensures { result ≡ sought_at b.now }
{
    Sought {
        known: true,
        present: 0 < b[Record::STATE_AT],
        services: fields::unregistered_services(b),
    }
}

// "Unknown": the same of the record with the public identity, if there is one.
#[tactic(auto, using(lookup::proofs::Among::among_room), unfolding(questions::specs::Location::sought_of))]
fn seek(t: &[u8], count: usize, f: Option<u32>) -> Sought
    requires { SoundTable t.now count × Among count f }
    ensures { result ≡ sought_of t.now f }
{
    match f {
        Some(k) => seek_record(block(t, k as usize)),
        None => Sought {
            known: false,
            present: false,
            services: false,
        },
    }
}

#[tactic(auto, using(lookup::proofs::Among::public_among), unfolding(questions::specs::Location::locate, questions::specs::Location::locate_found, table::specs::Named::private_at))]
pub fn locate(t: &[u8], count: usize, public: &[u8]) -> Given
    requires { SoundTable t.now count }
    ensures { result ≡ locate t.now count public.now }
{
    let f = plain_lookup::find_public(t, count, public);
    let k = lookup::block_found(f);
    let owner = fields::private(block(t, k as usize));
    carry(t, count, owner, k, seek(t, count, f).location())
}

// 02 [1]: "identities unknown, not matching, scheme other than `Digest-AKAv1-MD5`", of the record in block b; and whether there is a vector to send.
#[tactic(auto, unfolding(questions::specs::Authentication::claimed_at))]
fn claim_record(
    t: &[u8],
    count: usize,
    b: &[u8; 512],
    user: &[u8],
    scheme: &[u8],
    some: bool,
) -> Claimed
    requires { SoundTable t.now count }
    ensures { result
        ≡ claimed_at b.now (is_at (find_private t.now count user.now)) user.now scheme.now some }
{
    Claimed {
        known: plain_lookup::known_private(t, count, user),
        together: bytes::same(fields::private(b), user),
        served: bytes::same(scheme, &vectors::SCHEME),
        some,
    }
}

// The same of the record with the public identity, if there is one.
#[tactic(auto, using(lookup::proofs::Among::among_room), unfolding(questions::specs::Authentication::claimed_of))]
fn claim(t: &[u8], count: usize, user: &[u8], scheme: &[u8], some: bool, f: Option<u32>) -> Claimed
    requires { SoundTable t.now count × Among count f }
    ensures { result ≡ claimed_of t.now count user.now scheme.now some f }
{
    match f {
        Some(k) => claim_record(t, count, block(t, k as usize), user, scheme, some),
        None => Claimed {
            known: false,
            together: false,
            served: false,
            some: false,
        },
    }
}

// "that name's first unused vectors in file order, as many as asked or as remain, at most 16"
#[tactic(auto, unfolding(questions::specs::Authentication::to_send))]
fn to_send(v: &[u8], user: &[u8], number: u32) -> Sent
    requires { SoundVectors v.now }
    ensures { result ≡ to_send v.now user.now number }
{
    plain_vectors::first_unused(v, user, (number as usize).min(16))
}

#[tactic(auto, using(lookup::proofs::Among::public_among), unfolding(questions::specs::Authentication::authenticate, questions::specs::Authentication::authenticate_found))]
pub fn authenticate(
    t: &[u8],
    count: usize,
    v: &[u8],
    user: &[u8],
    public: &[u8],
    scheme: &[u8],
    number: u32,
) -> Plan
    requires { SoundTable t.now count × SoundVectors v.now }
    ensures { result ≡ authenticate t.now count v.now user.now public.now scheme.now number }
{
    let f = plain_lookup::find_public(t, count, public);
    let sent = to_send(v, user, number);
    let claimed = claim(t, count, user, scheme, 0 < sent.count, f);
    challenge::challenge_of(claimed.finding(), lookup::block_found(f), sent)
}
