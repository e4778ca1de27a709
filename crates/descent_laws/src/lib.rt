// Laws of the weighted sum, the line search, the descent and the guided run of document 01; demand 3. Their words stand in specs/,
// the theorems in proofs/.
#![tactic(auto)]
