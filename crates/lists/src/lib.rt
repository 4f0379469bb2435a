// Laws of lists that several crates need. This crate has no code: the laws are in proofs/.
#![tactic(auto)]
