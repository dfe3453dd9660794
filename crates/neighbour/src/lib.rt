#![tactic(auto)]
// Another subscriber's doings show in no answer, proofs/Neighbour.antt. There is no code here.
