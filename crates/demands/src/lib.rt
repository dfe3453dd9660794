#![tactic(auto)]
// The customer's demands as theorems about `serve`, proofs/Demands.antt. There is no code here.
