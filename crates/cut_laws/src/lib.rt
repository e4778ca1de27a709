// Laws of the cut list (document 02, point 2): what follows from the definitions of the crate model. Their words stand in specs/,
// the theorems in proofs/. The crate has no code.
#![tactic(auto)]
