// "Effects": the records are written one after the other, and with each the records of its set.
ghost use Rattle.std.specs.Prelude.{◌≡◌, ◌||◌, [], ◌∷◌, ◌+◌, ◌*◌, ◌≤◌, eqb, length};
ghost use Rattle.record.specs.Sets.{same_set};
ghost use Rattle.blocks.specs.Blocks.{block_of};
ghost use Rattle.table.specs.SoundTable.{SoundTable};
ghost use Rattle.lookup.specs.Among.{Among};
ghost use Rattle.rewrite.specs.Change.{after_of, reaches};
ghost use Rattle.rewrite.specs.Renew.{settled};
ghost use Rattle.rewrite.specs.Fitting.{Fitting, change_of, ChangeFits};
ghost use Rattle.diameter.specs.Message.{body_of};
ghost use Rattle.requests.specs.Request.{identities};
ghost use Rattle.assignment.specs.Assignment.{find_all, numbers_of, owned_up_to};

use blocks::block;
use diameter::message;
use plain_table::subscriber;
use requests::identities;
use requests::identities::Identity;
use rewrite::Change;

// Whether block j is block k or of its set.
fn reached(t: &[u8], k: usize, j: usize) -> bool
    requires { (512 * k + 512 ≤ length t.now) × (512 * j + 512 ≤ length t.now) }
    ensures { result ≡ (eqb j k || same_set (block_of t.now k) (block_of t.now j)) }
{
    (j == k) | subscriber::same_set(block(t, k), block(t, j))
}

// 02 [6]: "Every effect of a SAR or an authentication request reaches the whole set": of the record in block k.
pub fn change_set(t: &mut [u8], count: usize, k: usize, c: Change, name: &[u8])
    requires { SoundTable t.old count × (1 ≤ k) × (k ≤ count) × ChangeFits c name.now }
    ensures { t.new ≡ after_of t.old count (reaches t.old (k ∷ [])) (change_of c name.now) }
{
    // From 0 on, as the proofs count what is written: with `1..=count` the last turn would be proved twice.
    for i in 0..count {
        let chosen = reached(t, k, i + 1);
        rewrite::change_if(t, i + 1, chosen, c, name);
    }
}

// A record that was found or not.
fn settle_found(t: &mut [u8], count: usize, f: Option<u32>, state: u8, server: &[u8])
    requires { SoundTable t.old count × Among count f × Fitting state server.now }
    ensures { t.new ≡ after_of t.old count (reaches t.old (numbers_of (f ∷ []))) (settled state server.now) }
{
    if let Some(k) = f {
        change_set(t, count, k as usize, Change::Settled(state), server);
    }
}

// The records of the named identities.
pub fn settle_named(t: &mut [u8], count: usize, req: &[u8], state: u8, server: &[u8])
    requires { SoundTable t.old count × Fitting state server.now }
    ensures { t.new
        ≡ after_of t.old count (reaches t.old (numbers_of (find_all t.old count (identities (body_of req.now)))))
        (settled state server.now) }
{
    let mut at = message::BODY;
    while let Some(Identity { place, past }) = identities::next_identity(req, at) {
        let f = plain_lookup::find_public(t, count, diameter::data_at(req, place));
        settle_found(t, count, f, state, server);
        at = past;
    }
}

// The User-Name's records that are not in state 0: whole sets, since the records of a set agree in state.
pub fn settle_owned(t: &mut [u8], count: usize, user: &[u8], state: u8, server: &[u8])
    requires { SoundTable t.old count × Fitting state server.now }
    ensures { t.new
        ≡ after_of t.old count (reaches t.old (owned_up_to t.old user.now count))
        (settled state server.now) }
{
    // From 0 on, as above.
    for i in 0..count {
        let chosen = crate::owned(block(t, i + 1), user);
        rewrite::change_if(t, i + 1, chosen, Change::Settled(state), server);
    }
}
