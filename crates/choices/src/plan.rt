// What is found and planned; and "SAR.": what it comes to, by what was seen of its records, and the plan then.
ghost use Rattle.std.specs.Prelude.{◌≡◌, Ok};
ghost use Rattle.choices.specs.Plans.{finding_of, grant, only, deed_of, plan_of};

use crate::types::{AssignmentType, Effect};
use crate::{Given, giving};
use reading::{Outcome, base, experimental};

// The numbers of a SAR: its type, 624, whether a User-Name is given; and the header's keep.
#[derive(Clone, Copy)]
pub struct Sar {
    pub kind: AssignmentType,
    pub already: u32,
    pub named: bool,
    pub keep: bool,
}

// What was seen of the records that a SAR means: all known, at least one, all of one subscription, the request's name stored by each, no other name
// stored by any, all in a right state.
#[derive(Clone, Copy)]
pub struct Survey {
    pub known: bool,
    pub some: bool,
    pub own: bool,
    pub stores: bool,
    pub fits: bool,
    pub right: bool,
}

// A row of the table of effects on the User-Name's records that are not in state 0 or on those of the named identities: the state that each gets, and
// whether it has the request's server name then.
#[derive(Clone, Copy)]
pub struct Settling {
    pub owned: bool,
    pub state: u8,
    pub named: bool,
}

// What is to be written: nothing; a row of the table of effects; the request's server name into the record of a block, with the vectors sent marked.
#[derive(Clone, Copy)]
pub enum Deed {
    Leave,
    Settle(Settling),
    Challenge(u32),
}

// A decision that is still to be carried out: what the answer carries, and what is to be written.
#[derive(Clone, Copy)]
pub struct Plan {
    pub given: Given,
    pub deed: Deed,
}

impl Survey {
    // The first that is at fault, in the document's order.
    #[tactic(auto, unfolding(crate::specs::Plans::finding_of))]
    pub fn finding(self, kind: AssignmentType) -> Result<(), Outcome>
        ensures { result ≡ finding_of self kind }
    {
        if !self.known {
            return Err(Outcome::Experimental(experimental::USER_UNKNOWN));
        }
        if !self.own {
            return Err(Outcome::Experimental(experimental::IDENTITIES_DONT_MATCH));
        }
        if kind.asks_only() {
            if self.stores {
                return Ok(());
            }
            return Err(Outcome::Base(base::UNABLE_TO_COMPLY));
        }
        if !self.fits {
            return Err(Outcome::Experimental(experimental::IDENTITY_ALREADY_REGISTERED));
        }
        if !(self.some & self.right) {
            return Err(Outcome::Experimental(experimental::IN_ASSIGNMENT_TYPE));
        }
        Ok(())
    }
}

impl Sar {
    // A success carries the private identity of the record in block `first`, and its user data where 624 is 0, for the types that carry them.
    #[tactic(auto, unfolding(crate::specs::Plans::grant))]
    fn granted(self, first: u32, res: Outcome) -> Given
        ensures { result ≡ grant self first res }
    {
        if !self.kind.carries_user() {
            return giving::plain(res);
        }
        if self.already == 0 {
            return giving::assigned(res, first, first);
        }
        giving::assigned(res, first, 0)
    }

    // The row of the type in the table of effects is to be carried out.
    #[tactic(auto, unfolding(crate::specs::Plans::plan_of))]
    fn effecting(self, first: u32, owned: bool) -> Plan
        ensures { result ≡ plan_of (Ok tt) self first owned }
    {
        let effect = self.kind.effect(self.keep);
        Plan {
            given: self.granted(first, effect.result),
            deed: effect.deed(owned),
        }
    }

    // The plan by what was found.
    #[tactic(auto, unfolding(crate::specs::Plans::plan_of))]
    pub fn plan(self, found: Result<(), Outcome>, first: u32, owned: bool) -> Plan
        ensures { result ≡ plan_of found self first owned }
    {
        match found {
            Ok(()) => self.effecting(first, owned),
            Err(result) => Plan::reply_only(giving::plain(result)),
        }
    }
}

impl Effect {
    // What a row of the table of effects has to be written.
    #[tactic(auto, unfolding(crate::specs::Plans::deed_of))]
    fn deed(self, owned: bool) -> Deed
        ensures { result ≡ deed_of self owned }
    {
        if self.write {
            Deed::Settle(Settling {
                owned,
                state: self.state,
                named: self.named,
            })
        } else {
            Deed::Leave
        }
    }
}

impl Plan {
    // Nothing is written.
    pub fn reply_only(given: Given) -> Plan
        ensures { result ≡ only given }
    {
        Plan {
            given,
            deed: Deed::Leave,
        }
    }
}
