#![tactic(auto)]
// Two tables that differ in all that neighbours may do, and calls over them, computed: proofs/. There is no code here.
