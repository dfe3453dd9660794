#![tactic(auto)]
// The theorems about the Sh server met: calls computed, proofs/Calls.antt and those beside it. There is no code here.
