#![tactic(auto)]
// What the Sh server's calls come to, as theorems about `sh_serve`: proofs/Demands.antt. There is no code here.
