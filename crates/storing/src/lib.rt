// What writes and reads of records promise, each alone, both together, and for responses. This crate has no code: the claims are in
// specs/, their proofs in proofs/.
#![tactic(auto)]
