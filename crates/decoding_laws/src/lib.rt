// What the definitions of decoding amount to: statements (specs/) and their proofs (proofs/). No code.
#![tactic(auto)]
