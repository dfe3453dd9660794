#![tactic(auto)]
// User-Data-Requests computed from the definitions: proofs/Worked.antt; calls, and wrong servers: proofs/Servers.antt. There is no code here.
