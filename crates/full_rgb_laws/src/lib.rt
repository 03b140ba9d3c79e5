// What the code's own arithmetic of full-range R'G'B' amounts to: statements (specs/) and their proofs (proofs/). No code.
#![tactic(auto)]
