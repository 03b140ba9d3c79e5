// What the definitions of the card amount to: statements (specs/) and their proofs (proofs/). No code.
#![tactic(auto)]
