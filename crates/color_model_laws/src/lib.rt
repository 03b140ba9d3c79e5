// What the definitions of the conversion amount to, and examples (the paper's marked ones, and points of range 3): statements (specs/) and their proofs (proofs/). No code.
#![tactic(auto)]
