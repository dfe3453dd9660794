// "The authentication request."
ghost use Rattle.std.specs.Prelude.{◌≡◌};
ghost use Rattle.table.specs.SoundTable.{SoundTable};
ghost use Rattle.vectors.specs.VectorFile.{SoundVectors};
ghost use Rattle.lookup.specs.Among.{Among};
ghost use Rattle.questions.specs.Authentication.{claimed_at, claimed_of, to_send, authenticate};

use crate::carrying;
use choices::challenge;
use choices::challenge::Claimed;
use choices::plan::Plan;
use octets::name;
use record::fields;
use vectors::choice;
use vectors::choice::Sent;

// The questions, put to a record's block b, where it is known whether the private identity is, and whether there is a vector to send.
#[tactic(auto, unfolding(crate::specs::Authentication::claimed_at))]
fn claim_record(b: &[u8; 512], known: bool, user: &[u8], scheme: &[u8], some: bool) -> Claimed
    ensures { result ≡ claimed_at b.now known user.now scheme.now some }
{
    Claimed {
        known,
        together: name::same(fields::private(b), user),
        served: name::same(scheme, &vectors::SCHEME),
        some,
    }
}

// The questions, put to the record with the public identity, if there is one.
#[tactic(auto, using(lookup::proofs::Among::among_room), unfolding(crate::specs::Authentication::claimed_of))]
fn claim(t: &[u8], count: usize, user: &[u8], scheme: &[u8], some: bool, f: Option<u32>) -> Claimed
    requires { SoundTable t.now count × Among count f }
    ensures { result ≡ claimed_of t.now count user.now scheme.now some f }
{
    match f {
        Some(k) => claim_record(
            blocks::block(t, k as usize),
            lookup::known_near(t, count, k, user),
            user,
            scheme,
            some,
        ),
        None => Claimed {
            known: false,
            together: false,
            served: false,
            some: false,
        },
    }
}

// "as many as asked or as remain, at most 16"
#[tactic(auto, unfolding(crate::specs::Authentication::to_send))]
fn to_send(v: &[u8], user: &[u8], number: u32) -> Sent
    requires { SoundVectors v.now }
    ensures { result ≡ to_send v.now user.now number }
{
    choice::first_unused(v, user, choice::MOST.min(number as usize))
}

#[tactic(auto, unfolding(crate::specs::Authentication::authenticate, crate::specs::Authentication::authenticate_found))]
pub fn authenticate(
    t: &[u8],
    count: usize,
    v: &[u8],
    user: &[u8],
    public: &[u8],
    scheme: &[u8],
    number: u32,
) -> Plan
    requires { SoundTable t.now count × SoundVectors v.now }
    ensures { result ≡ authenticate t.now count v.now user.now public.now scheme.now number }
{
    let f = lookup::find_public(t, count, public);
    let sent = to_send(v, user, number);
    let claimed = claim(t, count, user, scheme, 0 < sent.count, f);
    challenge::challenge_of(claimed.finding(), lookup::block_found(f), sent)
}
