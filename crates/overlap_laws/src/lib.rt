// Laws of shared pixels, conflicts, depth, penalty and no-fit rows: their words stand in specs/, the theorems in proofs/. No code.
#![tactic(auto)]
