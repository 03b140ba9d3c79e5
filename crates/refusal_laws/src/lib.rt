// The numbers of the refusal slip, row by row: statements (specs/) and their proofs (proofs/). No code.
#![tactic(auto)]
