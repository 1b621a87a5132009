// The histories are in specs/, and their theorems in proofs/. There is no code.
#![tactic(auto)]
