// What the shapes of a job give to maps and their lines: see proofs/. No code.
#![tactic(auto)]
