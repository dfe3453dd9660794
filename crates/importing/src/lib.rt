#![tactic(auto)]
// Import as a definition, with its laws; the code here is the test of the look-ahead.
pub mod above;
