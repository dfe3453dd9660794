#![tactic(auto)]
// Document 01's worked examples, proved of the definitions: proofs/Examples.antt. There is no code here.
