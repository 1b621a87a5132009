// Histories of exported calls are in specs/, and their theorem is in proofs/. There is no code.
#![tactic(auto)]
