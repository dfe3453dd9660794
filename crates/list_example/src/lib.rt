#![tactic(auto)]
// A table of two records listed and read back, computed: proofs/. There is no code here.
