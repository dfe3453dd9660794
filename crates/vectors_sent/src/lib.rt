#![tactic(auto)]
// What becomes of the vector file, as theorems about `serve`: proofs/Sending.antt. There is no code here.
