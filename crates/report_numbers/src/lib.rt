#![tactic(auto)]
// The report's numbers, as theorems about `reported`: proofs/Numbers.antt. There is no code here.
