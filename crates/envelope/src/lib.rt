#![tactic(auto)]
// What every answer has, whoever decided: its header, how it begins, how it ends.
pub mod front;
pub mod header;
pub mod last;
