#![tactic(auto)]
// A family whose lines share a set, computed: what the check, a SAR, a MAR and a UAR come to, and wrong servers: proofs/Family.antt. There is no code here.
