#![tactic(auto)]
// The answer in pieces: what every answer has, what a decision gives.
pub mod front;
pub mod given;
