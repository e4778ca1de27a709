// Laws that the fast code of sums, line search, descent and guided run of document 01 rests on. Their words stand in specs/, the laws
// in proofs/.
#![tactic(auto)]
