// "Server-Assignment-Type 614 (0 to 11)": what each type is, which states it starts from, and what it does.
ghost use Rattle.std.specs.Prelude.{◌≡◌};
ghost use Rattle.choices.specs.Types.{type_of, is_removal, asks_only, carries_user, allowed, keeping, leaving, effect_of};

use reading::{Outcome, base, experimental};

// The types as far as they differ: 0, 1, 2, 3, the removals that keep no name and those that may (6 and 7), the failures.
#[derive(Clone, Copy)]
pub enum AssignmentType {
    NoAssignment,
    Registration,
    ReRegistration,
    UnregisteredUser,
    Removal,
    StoringRemoval,
    Failure,
}

// A row of the table of effects: whether a record is written at all, the state that it gets, whether it has the request's server name then,
// and the result.
#[derive(Clone, Copy)]
pub struct Effect {
    pub write: bool,
    pub state: u8,
    pub named: bool,
    pub result: Outcome,
}

// No other number than 0 to 11 is read.
impl From<u32> for AssignmentType {
    ghost from_gives = { λ number kind. kind ≡ type_of number };

    #[tactic(auto, unfolding(crate::specs::Types::type_of))]
    fn from(number: u32) -> AssignmentType {
        match number {
            1 => AssignmentType::Registration,
            2 => AssignmentType::ReRegistration,
            3 => AssignmentType::UnregisteredUser,
            4..=5 | 8 | 11 => AssignmentType::Removal,
            6..=7 => AssignmentType::StoringRemoval,
            9..=10 => AssignmentType::Failure,
            _ => AssignmentType::NoAssignment,
        }
    }
}

impl AssignmentType {
    // "Removal types are 4, 5, 6, 7, 8, 11."
    pub fn is_removal(self) -> bool
        ensures { result ≡ is_removal self }
    {
        matches!(
            self,
            AssignmentType::Removal | AssignmentType::StoringRemoval
        )
    }

    // Type 0 asks and alters nothing.
    pub fn asks_only(self) -> bool
        ensures { result ≡ asks_only self }
    {
        matches!(self, AssignmentType::NoAssignment)
    }

    // "SAR success, types 0 to 3"
    pub fn carries_user(self) -> bool
        ensures { result ≡ carries_user self }
    {
        !matches!(
            self,
            AssignmentType::Removal | AssignmentType::StoringRemoval | AssignmentType::Failure
        )
    }

    // "type 2 needs 1; type 3 needs 0 or 2; removals need 1 or 2": the others start from any state.
    pub fn allows(self, state: u8) -> bool
        ensures { result ≡ allowed self state }
    {
        match self {
            AssignmentType::Removal | AssignmentType::StoringRemoval => 0 < state,
            AssignmentType::ReRegistration => state == 1,
            AssignmentType::UnregisteredUser => (state == 0) | (state == 2),
            _ => true,
        }
    }

    // The row of a type in the table of effects; type 0 writes nothing.
    pub fn effect(self, keep: bool) -> Effect
        ensures { result ≡ effect_of self keep }
    {
        match self {
            AssignmentType::NoAssignment => Effect {
                write: false,
                state: 0,
                named: false,
                result: Outcome::Base(base::SUCCESS),
            },
            AssignmentType::Registration | AssignmentType::ReRegistration => Effect::kept(1),
            AssignmentType::UnregisteredUser => Effect::kept(2),
            AssignmentType::StoringRemoval => Effect::parked(keep),
            AssignmentType::Removal | AssignmentType::Failure => {
                Effect::gone(Outcome::Base(base::SUCCESS))
            }
        }
    }
}

impl Effect {
    // State 1 or 2, with the request's name.
    fn kept(state: u8) -> Effect
        ensures { result ≡ keeping state }
    {
        Effect {
            write: true,
            state,
            named: true,
            result: Outcome::Base(base::SUCCESS),
        }
    }

    // State 0, without a name.
    fn gone(res: Outcome) -> Effect
        ensures { result ≡ leaving res }
    {
        Effect {
            write: true,
            state: 0,
            named: false,
            result: res,
        }
    }

    // Types 6 and 7 go by the header's keep.
    fn parked(keep: bool) -> Effect
        ensures { result ≡ effect_of AssignmentType.StoringRemoval keep }
    {
        if keep {
            Effect::kept(2)
        } else {
            Effect::gone(Outcome::Experimental(experimental::SERVER_NAME_NOT_STORED))
        }
    }
}
