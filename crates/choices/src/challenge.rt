// "The authentication request.": what it comes to, and the plan then.
ghost use Rattle.std.specs.Prelude.{◌≡◌};
ghost use Rattle.choices.specs.Challenges.{claim_of, challenge_of};

use crate::giving;
use crate::plan::{Deed, Plan};
use reading::{Outcome, base, experimental};
use vectors::choice::Sent;

// What a MAR asks: whether both identities are known, whether they are together in one record, whether its scheme is the one that is served, and whether
// there is a vector to send.
#[derive(Clone, Copy)]
pub struct Claimed {
    pub known: bool,
    pub together: bool,
    pub served: bool,
    pub some: bool,
}

impl Claimed {
    // The first that is at fault, in the document's order.
    #[tactic(auto, unfolding(crate::specs::Challenges::claim_of))]
    pub fn finding(self) -> Result<(), Outcome>
        ensures { result ≡ claim_of self }
    {
        if !self.known {
            return Err(Outcome::Experimental(experimental::USER_UNKNOWN));
        }
        if !self.together {
            return Err(Outcome::Experimental(experimental::IDENTITIES_DONT_MATCH));
        }
        if !self.served {
            return Err(Outcome::Experimental(experimental::AUTH_SCHEME_NOT_SUPPORTED));
        }
        if !self.some {
            return Err(Outcome::Base(base::UNABLE_TO_COMPLY));
        }
        Ok(())
    }
}

// A success sends these vectors, with the identities of the record in block k.
#[tactic(auto, unfolding(crate::specs::Challenges::challenge_of))]
pub fn challenge_of(found: Result<(), Outcome>, k: u32, sent: Sent) -> Plan
    ensures { result ≡ challenge_of found k sent }
{
    match found {
        Ok(()) => Plan {
            given: giving::challenging(k, sent),
            deed: Deed::Challenge(k),
        },
        Err(result) => Plan::reply_only(giving::plain(result)),
    }
}
