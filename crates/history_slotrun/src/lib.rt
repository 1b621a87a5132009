// The commands as histories are in specs/, and their theorem is in proofs/. There is no code.
#![tactic(auto)]
