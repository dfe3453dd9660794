#![tactic(auto)]
// Small rows computed, the theorems of a row met by them, and wrong rows: proofs/Small.antt. There is no code here.
