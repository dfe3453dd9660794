#![tactic(auto)]
// What a later request left as it was, as theorems about `serve_table` under older rules: proofs/Sets.antt, proofs/Unreachable.antt. There is no code here.
