// What the definitions of quantization amount to: statements (specs/) and their proofs (proofs/). No code.
#![tactic(auto)]
