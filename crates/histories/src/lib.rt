// Lists of calls, their read lists and their histories, and demand 3. This crate has no code: the claims are in specs/, their proofs in
// proofs/.
#![tactic(auto)]
