// What a choice on one record gives the answer to carry.
ghost use Rattle.std.specs.Prelude.{◌≡◌};
ghost use Rattle.table.specs.SoundTable.{SoundTable};
ghost use Rattle.lookup.specs.Find.{block_found};
ghost use Rattle.questions.specs.Carried.{served_by, carried};

use choices::choice::Choice;
use choices::{Given, giving};
use reading::Outcome;

// The server name of a record that was found, or else the capabilities of block k.
fn served_by(f: Option<u32>, res: Outcome, other: Outcome, k: u32) -> Given
    ensures { result ≡ served_by f res other k }
{
    match f {
        Some(j) => giving::serving(res, j),
        None => giving::capable(other, k),
    }
}

// What a choice on block k carries; user is its subscription.
#[tactic(auto, unfolding(crate::specs::Carried::carried))]
pub fn carry(t: &[u8], count: usize, user: &[u8], k: u32, choice: Choice) -> Given
    requires { SoundTable t.now count }
    ensures { result ≡ carried t.now count user.now k choice }
{
    match choice {
        Choice::Alone(result) => giving::plain(result),
        Choice::Server(result) => giving::serving(result, k),
        Choice::Capabilities(result) => giving::capable(result, k),
        Choice::First(result, other) => {
            served_by(lookup::first_server(t, count, user), result, other, k)
        }
    }
}
