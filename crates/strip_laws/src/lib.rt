// Laws of runs, turns and strips: what follows from the definitions of the crate model. Their words stand in specs/,
// the theorems in proofs/. The crate has no code.
#![tactic(auto)]
