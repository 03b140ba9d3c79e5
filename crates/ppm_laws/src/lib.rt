// What exporting and importing pictures amounts to: statements (specs/) and their proofs (proofs/). No code.
#![tactic(auto)]
