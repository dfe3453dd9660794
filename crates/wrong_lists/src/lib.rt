#![tactic(auto)]
// Wrong exports and imports, and lists that are computed: proofs/. There is no code here.
