// Laws of the sheet of cover counts (document 01, 'Start, layout text, sheet'): its words stand in specs/, the theorems in
// proofs/. There is no code here.
#![tactic(auto)]
