// Laws of a lent job that passes its check: what the check of the crate model gives, once for all that rests on it. The crate has no
// code.
#![tactic(auto)]
