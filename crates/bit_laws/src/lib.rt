// Words as strings of bits: what bit a place has, and what the machine's operations do to it. No code: see specs/ and proofs/.
#![tactic(auto)]
