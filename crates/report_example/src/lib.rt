#![tactic(auto)]
// A small month's report, computed, the theorems of the numbers met by it, and wrong reporters: proofs/Month.antt. There is no code here.
