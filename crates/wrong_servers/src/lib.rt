#![tactic(auto)]
// Wrong servers tried against the promises: proofs/Servers.antt. There is no code here.
