#![tactic(auto)]
// One block of the table: the header with its networks, and a record.
pub mod fields;
pub mod header;
pub mod networks;
pub mod sets;
pub mod subscriber;
