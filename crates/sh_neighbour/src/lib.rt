#![tactic(auto)]
// 02 [9] for the Sh server, as theorems about `sh_serve`: proofs/Neighbour.antt. There is no code here.
