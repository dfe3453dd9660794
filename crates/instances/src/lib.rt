#![tactic(auto)]
// The demands met: a table, a SAR and what is put into it, computed, proofs/Calls.antt and those beside it. There is no code here.
