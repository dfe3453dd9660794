#![tactic(auto)]
// UAR, LIR and MAR over a sound table: the questions are put, the choice is made, and what it stands for is looked up.
pub mod authentication;
pub mod authorization;
pub mod carrying;
pub mod location;
