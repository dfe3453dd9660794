#![tactic(auto)]
// What a row comes to, as theorems about `rowed`: proofs/Rows.antt. There is no code here.
