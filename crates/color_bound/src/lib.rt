// The bound of request A5, from R'G'B' to Y'CbCr and back: statements (specs/) and their proofs (proofs/). No code.
#![tactic(auto)]
