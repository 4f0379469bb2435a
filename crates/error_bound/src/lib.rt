// The exponential is near the exact fraction of document 01. This crate has no code: the claim is in specs/, its proof in proofs/.
#![tactic(auto)]
