// Laws of tests, numbers, lists and loops, which speak of no word of document 01. The crate has no code.
#![tactic(auto)]
