// What the definitions of the descriptor amount to: statements (specs/) and their proofs (proofs/). No code.
#![tactic(auto)]
