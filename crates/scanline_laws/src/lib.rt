// What the definitions of lines amount to: statements (specs/) and their proofs (proofs/). No code.
#![tactic(auto)]
