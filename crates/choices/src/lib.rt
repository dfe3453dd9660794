#![tactic(auto)]
// Pure choice, without bytes: what each decision comes to by the answers to its questions, what the answer carries then, and what is to be written.
pub mod challenge;
pub mod choice;
pub mod giving;
pub mod plan;
pub mod types;

use reading::Verdict;
use vectors::choice::Sent;

// What a decision gives the answer to carry. Names, capabilities, user data and vectors stay where they are: these are the numbers of the
// blocks that have them, 0 where the answer has no such AVP; of the vectors, whose block 0 is one, there is a count.
// Numbers, and no Options: the laws of `seen_alike` and `demands` compare them (`GivenAlike`, `SameGiven`).
#[derive(Clone, Copy)]
pub struct Given {
    pub verdict: Verdict,
    pub user: u32,
    pub public: u32,
    pub server: u32,
    pub capable: u32,
    pub profile: u32,
    pub sent: Sent,
}
