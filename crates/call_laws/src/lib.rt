// What document 01's theorems say of the public calls: their words stand in specs/, the theorems in proofs/. No code.
#![tactic(auto)]
