// Laws of pushing left and down (document 02, point 7): what follows from the definitions of the crate model. Their words stand in specs/,
// the theorems in proofs/. The crate has no code.
#![tactic(auto)]
