#![tactic(auto)]
// Laws of the list for the billing desk: no code.
