// Laws of lists, in proofs/. There is no code.
#![tactic(auto)]
