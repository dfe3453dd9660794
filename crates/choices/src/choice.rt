// "UAR." and "LIR.": what each comes to, by the answers to its questions.
ghost use Rattle.std.specs.Prelude.{◌≡◌};
ghost use Rattle.choices.specs.Choices.{authorization, location};

use reading::{Outcome, base, experimental};

// What a UAR asks: whether both identities are known, and of the record with the public one whether it has the private one too, whether it is
// barred, whether it may roam in the visited network, and whether it is in state 1 or 2.
#[derive(Clone, Copy)]
pub struct Asked {
    pub known: bool,
    pub together: bool,
    pub barred: bool,
    pub roams: bool,
    pub present: bool,
}

// What a LIR asks: whether the identity is known, and of its record whether it is in state 1 or 2 and whether it has unregistered services.
#[derive(Clone, Copy)]
pub struct Sought {
    pub known: bool,
    pub present: bool,
    pub services: bool,
}

#[derive(Clone, Copy)]
pub enum Choice {
    // A result alone.
    Alone(Outcome),
    // The asked record's server name.
    Server(Outcome),
    // The asked record's capabilities.
    Capabilities(Outcome),
    // The first server name in the subscription; none, capabilities with the other result.
    First(Outcome, Outcome),
}

impl Asked {
    // The decision on a UAR, in the document's order.
    #[tactic(auto, unfolding(crate::specs::Choices::authorization))]
    pub fn authorization(self, kind: u32) -> Choice
        ensures { result ≡ authorization self kind }
    {
        if !self.known {
            return Choice::Alone(Outcome::Experimental(experimental::USER_UNKNOWN));
        }
        if !self.together {
            return Choice::Alone(Outcome::Experimental(experimental::IDENTITIES_DONT_MATCH));
        }
        if self.barred {
            return Choice::Alone(Outcome::Base(base::AUTHORIZATION_REJECTED));
        }
        if (kind != 1) & !self.roams {
            return Choice::Alone(Outcome::Experimental(experimental::ROAMING_NOT_ALLOWED));
        }
        if kind == 2 {
            return Choice::Capabilities(Outcome::Base(base::SUCCESS));
        }
        if self.present {
            if kind == 0 {
                return Choice::Server(Outcome::Experimental(experimental::SUBSEQUENT_REGISTRATION));
            }
            return Choice::Server(Outcome::Base(base::SUCCESS));
        }
        if kind == 1 {
            return Choice::Alone(Outcome::Experimental(experimental::IDENTITY_NOT_REGISTERED));
        }
        Choice::First(
            Outcome::Experimental(experimental::SUBSEQUENT_REGISTRATION),
            Outcome::Experimental(experimental::FIRST_REGISTRATION),
        )
    }
}

impl Sought {
    // The decision on a LIR.
    #[tactic(auto, unfolding(crate::specs::Choices::location))]
    pub fn location(self) -> Choice
        ensures { result ≡ location self }
    {
        if !self.known {
            return Choice::Alone(Outcome::Experimental(experimental::USER_UNKNOWN));
        }
        if self.present {
            return Choice::Server(Outcome::Base(base::SUCCESS));
        }
        if !self.services {
            return Choice::Alone(Outcome::Experimental(experimental::IDENTITY_NOT_REGISTERED));
        }
        Choice::First(
            Outcome::Base(base::SUCCESS),
            Outcome::Experimental(experimental::UNREGISTERED_SERVICE),
        )
    }
}
