#![tactic(auto)]
// Two tables that agree in everything that a request can see are answered alike, proofs/Likeness.antt. There is no code here.
