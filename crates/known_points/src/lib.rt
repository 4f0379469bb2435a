// The definitions give the known points of document 01, and two lists of calls meet all that demand 3 asks. This crate has no code: what
// is claimed is in specs/, the proofs in proofs/.
#![tactic(auto)]
