#![tactic(auto)]
// A table taken over, computed: refusals at their edges, a cut after every block, what each condition keeps out, wrong takers: proofs/. There is no code here.
