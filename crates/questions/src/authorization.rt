// "UAR."
ghost use Rattle.std.specs.Prelude.{◌≡◌};
ghost use Rattle.blocks.specs.Blocks.{block_of};
ghost use Rattle.table.specs.SoundTable.{SoundTable};
ghost use Rattle.lookup.specs.Find.{barred_alone};
ghost use Rattle.lookup.specs.Among.{Among};
ghost use Rattle.questions.specs.Authorization.{asked_at, asked_of, authorize};

use crate::carrying;
use choices::Given;
use choices::choice::Asked;
use octets::name;
use record::fields;
use record::subscriber::Record;

// The questions, put to a record's block b, where it is known whether the private identity is.
#[tactic(auto, unfolding(crate::specs::Authorization::asked_at))]
fn ask_record(
    t: &[u8],
    count: usize,
    b: &[u8; 512],
    known: bool,
    user: &[u8],
    network: &[u8],
) -> Asked
    requires { SoundTable t.now count }
    ensures { result
        ≡ asked_at (block_of t.now 0) b.now known (barred_alone t.now count b.now) user.now
        network.now }
{
    Asked {
        known,
        together: name::same(fields::private(b), user),
        barred: lookup::barred_alone(t, count, b),
        roams: lookup::may_roam(t, count, b, network),
        present: 0 < b[Record::STATE_AT],
    }
}

// The questions, put to the record with the public identity, if there is one.
#[tactic(auto, using(lookup::proofs::Among::among_room), unfolding(crate::specs::Authorization::asked_of))]
fn ask(t: &[u8], count: usize, user: &[u8], network: &[u8], f: Option<u32>) -> Asked
    requires { SoundTable t.now count × Among count f }
    ensures { result ≡ asked_of t.now count user.now network.now f }
{
    match f {
        Some(k) => ask_record(
            t,
            count,
            blocks::block(t, k as usize),
            lookup::known_near(t, count, k, user),
            user,
            network,
        ),
        None => Asked {
            known: false,
            together: false,
            barred: false,
            roams: false,
            present: false,
        },
    }
}

#[tactic(auto, using(lookup::proofs::Among::public_among), unfolding(crate::specs::Authorization::authorize, crate::specs::Authorization::authorize_found))]
pub fn authorize(
    t: &[u8],
    count: usize,
    user: &[u8],
    public: &[u8],
    network: &[u8],
    kind: u32,
) -> Given
    requires { SoundTable t.now count }
    ensures { result ≡ authorize t.now count user.now public.now network.now kind }
{
    let f = lookup::find_public(t, count, public);
    let asked = ask(t, count, user, network, f);
    carrying::carry(
        t,
        count,
        user,
        lookup::block_found(f),
        asked.authorization(kind),
    )
}
