// A removal without identity: the User-Name's records that are not in state 0.
ghost use Rattle.std.specs.Prelude.{◌≡◌, true};
ghost use Rattle.table.specs.SoundTable.{SoundTable};
ghost use Rattle.rewrite.specs.Change.{after_of, reaches, altered_up_to};
ghost use Rattle.rewrite.specs.Renew.{settled};
ghost use Rattle.rewrite.specs.Fitting.{Fitting};
ghost use Rattle.assignment.specs.Assignment.{owned_here, owned_up_to, survey_of};
ghost use Rattle.assignment.specs.Survey.{glimpsed};

use crate::{Asks, looking};
use choices::plan::Survey;
use octets::name;
use record::fields;
use record::subscriber::Record;
use rewrite::Change;

#[tactic(auto, unfolding(crate::specs::Assignment::owned_here))]
fn owned(b: &[u8; 512], user: &[u8]) -> bool
    ensures { result ≡ owned_here b.now user.now }
{
    (0 < b[Record::STATE_AT]) & name::same(fields::private(b), user)
}

// What is seen of them.
pub fn survey_owned(t: &[u8], count: usize, asks: Asks) -> Survey
    requires { SoundTable t.now count }
    ensures { result ≡ survey_of t.now asks.entry.owner.now asks.entry.server.now asks.entry.kind true
        (owned_up_to t.now asks.entry.owner.now count) }
{
    let mut seen = looking::fresh();
    for k in 1..=count {
        seen = asks.glimpse(seen, blocks::block(t, k));
    }
    seen
}

impl Asks<'_> {
    // One block more.
    #[tactic(auto, unfolding(crate::specs::Survey::glimpsed))]
    fn glimpse(self, seen: Survey, b: &[u8; 512]) -> Survey
        ensures { result ≡ glimpsed seen b.now self.entry.owner.now self.entry.server.now self.entry.kind }
    {
        if owned(b, self.owner) {
            looking::join(seen, self.look_at(b))
        } else {
            seen
        }
    }
}

// The effect on each of them, which are whole sets, since the records of a set agree in state. Answers how many records have other bytes then.
pub fn settle_owned(t: &mut [u8], count: usize, user: &[u8], state: u8, server: &[u8]) -> u32
    requires { SoundTable t.old count × Fitting state server.now }
    ensures { (t.new
        ≡ after_of t.old count (reaches t.old (owned_up_to t.old user.now count))
        (settled state server.now))
        × (result ≡ altered_up_to t.old t.new count) }
{
    let mut altered = 0;
    for k in 1..=count {
        let chosen = owned(blocks::block(t, k), user);
        altered += rewrite::change_if(t, k, chosen, Change::Settled(state), server);
    }
    altered
}
